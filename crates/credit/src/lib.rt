// The credits to grant. Public: GrantAnswer, grant.
#![tactic(auto)]

ghost use Rattle.std.specs.Prelude.{◌≡◌, ◌≤◌};
ghost use Rattle.credit.specs.Credit.{granted, grant_answer};

use answers::Refusal;

// Stays: README has `grant` with this answer, its number beside the credit.
#[derive(Clone, Copy)]
pub struct GrantAnswer {
    pub credit: u32,
    pub number: u32,
}

// The credits that a limit allows.
#[tactic(auto, unfolding(crate::specs::Credit::granted))]
pub fn granted_credit(asked: u32, limit: u32) -> u32
    requires { 1 ≤ limit }
    ensures { result ≡ granted asked limit }
{
    // A side without credits could never ask again.
    asked.max(1).min(limit)
}

// The credits to grant to one who asks.
#[tactic(auto, unfolding(crate::specs::Credit::grant_answer))]
pub fn grant(asked: u32, limit: u32) -> GrantAnswer
    ensures { result ≡ grant_answer asked limit }
{
    if limit == 0 {
        return GrantAnswer {
            credit: 0,
            number: u32::from(Refusal::BadArgument),
        };
    }
    GrantAnswer {
        credit: granted_credit(asked, limit),
        number: 0,
    }
}

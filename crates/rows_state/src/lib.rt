// Frodo by rows: 02, request e: the lent running state (`specs/State.antt`), and what a part of A does to it (`specs/Part.antt`), in Offer and in Reply. How a call
// begins and ends is crate `rows`.
#![tactic(auto)]

ghost use Rattle.std.specs.Prelude.{◌≡◌};
ghost use Rattle.rows_state.specs.State.{tag_of};

pub mod part;
pub mod state;

// The two calls that go by rows.
#[derive(Clone, Copy)]
pub enum Call {
    Offer,
    Reply,
}

impl Call {
    // Number 0 of a state in which Offer, or Reply, has begun. Both numbers change with the layout: see `specs/State.antt`.
    const OFFER_TAG: u32 = 3;

    const REPLY_TAG: u32 = 4;

    fn tag(self) -> u32
        ensures { result ≡ tag_of self }
    {
        match self {
            Call::Offer => Call::OFFER_TAG,
            Call::Reply => Call::REPLY_TAG,
        }
    }
}

// Replay detection (RFC 3118, sections 2 and 5.3): whether a counter is new to what was heard of its sender.
ghost use Rattle.std.specs.Prelude.{◌≡◌};
ghost use Rattle.dhcp_message.specs.Replay.{is_new};

// Whether a counter is new: nothing was heard yet, or it is above the one accepted last. Two arguments and no `Option`: mark and counter are lent as two lists
// (C), and the rule, `NewSays`, is of both.
#[tactic(auto, unfolding(crate::specs::Replay::is_new))]
pub fn is_new(heard: bool, stored: u64, counter: u64) -> bool
    ensures { result ≡ is_new heard stored counter }
{
    !heard || stored < counter
}

//! What holds of all that a proxy stands for.
ghost use Rattle.std.specs.Prelude.{◌≡◌, ◌++◌, ℕ, List};
ghost use Rattle.pgw_proxy.specs.declared.recorded.Side.{Side as TheSide};
ghost use Rattle.pgw_proxy.specs.Record.{RelayMessage, side_bytes};
ghost use Rattle.pgw_proxy.specs.Proxied.{RelayCourse, SideEvent, Proxied, side_input};

/// What is passed on of a side is a front of what it sent, whatever the pieces that it came in.
pub fn what_is_passed_on_came()
    ensures { (events : List SideEvent) (messages : List RelayMessage) (course : RelayCourse) →
        Proxied events messages course → (side : TheSide) →
        (more : List ℕ) × (side_input side events ≡ side_bytes side messages ++ more) }
{}

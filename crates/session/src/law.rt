ghost use Rattle.std.specs.Prelude.{List};
ghost use Rattle.cal_base.specs.declared.identity.NodeId.{NodeId};
ghost use Rattle.cal_base.specs.declared.identity.View.{View};
ghost use Rattle.session.specs.Delivery.{Side, Event, Delivers, new_link, run};

/// Whatever is sent and ticks at both ends, and whichever packets come, as often and in whatever
/// order: what an end has taken is the beginning of what was handed to the other end, and no packet
/// is more than eight messages ahead of those that were acknowledged.
pub fn delivered_is_a_prefix()
    ensures to_right { (me peer : NodeId) (view : View) (events : List (Side × Event))
        → Delivers (run events (new_link me peer view)).left (run events (new_link me peer view)).right }
    ensures to_left { (me peer : NodeId) (view : View) (events : List (Side × Event))
        → Delivers (run events (new_link me peer view)).right (run events (new_link me peer view)).left }
{}

ghost use Rattle.std.specs.Prelude.{◌≡◌, ◌<◌, length};
ghost use Rattle.exec_lane.specs.inner.Buffered.{ArePlacesOf, nth_callback};

use exec_world::{LaneBuffer, Ready};

// The callback of a lane that is this one in it, from 0.
pub(crate) fn callback_of<'a>(list: &'a [Ready], lane: &LaneBuffer, index: usize) -> &'a Ready
    requires places { ArePlacesOf list.now lane.now.places }
    requires index { index < length lane.now.places }
    ensures { result.now ≡ nth_callback list.now lane.now.places index }
{
    &list[lane.place(index)]
}

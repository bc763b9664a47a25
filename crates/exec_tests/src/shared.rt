//! What the tests of more than one crate call.
ghost use Rattle.std.specs.Prelude.{◌≤◌, ◌^◌};

use exec_msg::Moment;
use std::fmt::Debug;
use std::process::Abort;

// A function of its own, because each assertion in a test makes the test's proof longer.
pub(crate) fn same<T: PartialEq + Debug + Drop>(rt: &impl Abort, found: T, wanted: T) {
    assert_eq!(rt; found, wanted);
}

// As `same`, and says where.
pub(crate) fn same_at<T: PartialEq + Debug + Drop>(
    rt: &impl Abort,
    place: &str,
    found: T,
    wanted: T,
) {
    assert_eq!(rt; found, wanted, "at {place}");
}

pub(crate) fn moment(ticks: u64) -> Moment
    requires { ticks ≤ 2 ^ 62 }
{
    Moment::new(ticks).unwrap()
}

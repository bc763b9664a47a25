//! Worked cases: order.
ghost use Rattle.std.specs.Prelude.{◌≡◌, Some};
ghost use Rattle.exec_doc.specs.Refusals.{refusal_of};
ghost use Rattle.exec_doc.specs.declared.refused.Refused.TheVariants as code;
ghost use Rattle.exec_worked.specs.Answer.{transcript_of};
ghost use Rattle.exec_worked.specs.Order as worked;

/// - `age`: `cases/order/age.json` is refused with the code 2.
/// - `and_moments_that_go_back`: `cases/order/and_moments_that_go_back.json` is refused with the code 2.
/// - `by_kind_of_a_cancel_that_meets_a_success`: `cases/order/by_kind_of_a_cancel_that_meets_a_success.json` has this transcript.
/// - `by_kind_of_two_messages`: `cases/order/by_kind_of_two_messages.json` has this transcript.
/// - `in_a_list`: `cases/order/in_a_list.json` is refused with the code 2.
/// - `in_capitals`: `cases/order/in_capitals.json` is refused with the code 2.
/// - `of_a_node`: `cases/order/of_a_node.json` has this transcript.
/// - `of_a_number`: `cases/order/of_a_number.json` is refused with the code 2.
/// - `of_null`: `cases/order/of_null.json` is refused with the code 2.
/// - `of_the_last_of_two_versions`: `cases/order/of_the_last_of_two_versions.json` has this transcript.
/// - `of_version_1`: `cases/order/of_version_1.json` has this transcript.
/// - `of_version_3`: `cases/order/of_version_3.json` is refused with the code 3.
/// - `that_is_right_the_last_time`: `cases/order/that_is_right_the_last_time.json` has this transcript.
/// - `that_is_wrong_the_last_time`: `cases/order/that_is_wrong_the_last_time.json` is refused with the code 2.
/// - `without_a_version`: `cases/order/without_a_version.json` is refused with the code 2.
pub fn order_cases()
    ensures age { refusal_of worked.age_document ≡ Some code.Shape }
    ensures and_moments_that_go_back { refusal_of worked.and_moments_that_go_back_document ≡ Some code.Shape }
    ensures by_kind_of_a_cancel_that_meets_a_success { transcript_of worked.by_kind_of_a_cancel_that_meets_a_success_document ≡ Some worked.by_kind_of_a_cancel_that_meets_a_success_transcript }
    ensures by_kind_of_two_messages { transcript_of worked.by_kind_of_two_messages_document ≡ Some worked.by_kind_of_two_messages_transcript }
    ensures in_a_list { refusal_of worked.in_a_list_document ≡ Some code.Shape }
    ensures in_capitals { refusal_of worked.in_capitals_document ≡ Some code.Shape }
    ensures of_a_node { transcript_of worked.of_a_node_document ≡ Some worked.of_a_node_transcript }
    ensures of_a_number { refusal_of worked.of_a_number_document ≡ Some code.Shape }
    ensures of_null { refusal_of worked.of_null_document ≡ Some code.Shape }
    ensures of_the_last_of_two_versions { transcript_of worked.of_the_last_of_two_versions_document ≡ Some worked.of_the_last_of_two_versions_transcript }
    ensures of_version_1 { transcript_of worked.of_version_1_document ≡ Some worked.of_version_1_transcript }
    ensures of_version_3 { refusal_of worked.of_version_3_document ≡ Some code.Version }
    ensures that_is_right_the_last_time { transcript_of worked.that_is_right_the_last_time_document ≡ Some worked.that_is_right_the_last_time_transcript }
    ensures that_is_wrong_the_last_time { refusal_of worked.that_is_wrong_the_last_time_document ≡ Some code.Shape }
    ensures without_a_version { refusal_of worked.without_a_version_document ≡ Some code.Shape }
{}

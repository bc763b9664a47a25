//! Worked cases: version.
ghost use Rattle.std.specs.Prelude.{◌≡◌, Some};
ghost use Rattle.exec_doc.specs.Refusals.{refusal_of};
ghost use Rattle.exec_doc.specs.declared.refused.Refused.TheVariants as code;
ghost use Rattle.exec_worked.specs.Answer.{transcript_of};
ghost use Rattle.exec_worked.specs.Version as worked;

/// - `version_0`: `cases/version/0.json` is refused with the code 3.
/// - `version_2`: `cases/version/2.json` has this transcript.
/// - `version_2_and_moments_that_go_back`: `cases/version/2_and_moments_that_go_back.json` is refused with the code 8.
/// - `version_2_without_an_order`: `cases/version/2_without_an_order.json` has this transcript.
/// - `version_3`: `cases/version/3.json` is refused with the code 3.
/// - `version_3_and_a_topic_twice`: `cases/version/3_and_a_topic_twice.json` is refused with the code 3.
/// - `version_3_and_moments_that_go_back`: `cases/version/3_and_moments_that_go_back.json` is refused with the code 3.
/// - `written_twice`: `cases/version/written_twice.json` has this transcript.
pub fn version_cases()
    ensures version_0 { refusal_of worked.version_0_document ≡ Some code.Version }
    ensures version_2 { transcript_of worked.version_2_document ≡ Some worked.version_2_transcript }
    ensures version_2_and_moments_that_go_back { refusal_of worked.version_2_and_moments_that_go_back_document ≡ Some code.Clock }
    ensures version_2_without_an_order { transcript_of worked.version_2_without_an_order_document ≡ Some worked.version_2_without_an_order_transcript }
    ensures version_3 { refusal_of worked.version_3_document ≡ Some code.Version }
    ensures version_3_and_a_topic_twice { refusal_of worked.version_3_and_a_topic_twice_document ≡ Some code.Version }
    ensures version_3_and_moments_that_go_back { refusal_of worked.version_3_and_moments_that_go_back_document ≡ Some code.Version }
    ensures written_twice { transcript_of worked.written_twice_document ≡ Some worked.written_twice_transcript }
{}

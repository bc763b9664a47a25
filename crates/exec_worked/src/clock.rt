//! Worked cases: clock.
ghost use Rattle.std.specs.Prelude.{◌≡◌, Some};
ghost use Rattle.exec_doc.specs.Refusals.{refusal_of};
ghost use Rattle.exec_doc.specs.declared.refused.Refused.TheVariants as code;
ghost use Rattle.exec_worked.specs.Answer.{transcript_of};
ghost use Rattle.exec_worked.specs.Clock as worked;

/// - `a_moment_that_goes_back`: `cases/clock/a_moment_that_goes_back.json` is refused with the code 8.
/// - `a_round_0`: `cases/clock/a_round_0.json` is refused with the code 8.
/// - `a_round_beyond_the_moments`: `cases/clock/a_round_beyond_the_moments.json` is refused with the code 8.
/// - `and_no_identifier`: `cases/clock/and_no_identifier.json` is refused with the code 8.
/// - `feed_beyond_the_rounds`: `cases/clock/feed_beyond_the_rounds.json` is refused with the code 8.
/// - `moments_alike`: `cases/clock/moments_alike.json` has this transcript.
/// - `the_greatest_round`: `cases/clock/the_greatest_round.json` is refused with the code 8.
pub fn clock_cases()
    ensures a_moment_that_goes_back { refusal_of worked.a_moment_that_goes_back_document ≡ Some code.Clock }
    ensures a_round_0 { refusal_of worked.a_round_0_document ≡ Some code.Clock }
    ensures a_round_beyond_the_moments { refusal_of worked.a_round_beyond_the_moments_document ≡ Some code.Clock }
    ensures and_no_identifier { refusal_of worked.and_no_identifier_document ≡ Some code.Clock }
    ensures feed_beyond_the_rounds { refusal_of worked.feed_beyond_the_rounds_document ≡ Some code.Clock }
    ensures moments_alike { transcript_of worked.moments_alike_document ≡ Some worked.moments_alike_transcript }
    ensures the_greatest_round { refusal_of worked.the_greatest_round_document ≡ Some code.Clock }
{}

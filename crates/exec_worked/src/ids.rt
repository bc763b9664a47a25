//! Worked cases: ids.
ghost use Rattle.std.specs.Prelude.{◌≡◌, Some};
ghost use Rattle.exec_doc.specs.Refusals.{refusal_of};
ghost use Rattle.exec_doc.specs.declared.refused.Refused.TheVariants as code;
ghost use Rattle.exec_worked.specs.Answer.{transcript_of};
ghost use Rattle.exec_worked.specs.Ids as worked;

/// - `ids_32_digits_in_braces`: `cases/ids/32_digits_in_braces.json` is refused with the code 9.
/// - `a_cancel_of_zeros`: `cases/ids/a_cancel_of_zeros.json` has this transcript.
/// - `a_goal_of_zeros`: `cases/ids/a_goal_of_zeros.json` is refused with the code 9.
/// - `a_goal_of_zeros_behind_the_prefix`: `cases/ids/a_goal_of_zeros_behind_the_prefix.json` is refused with the code 9.
/// - `a_goal_of_zeros_in_braces`: `cases/ids/a_goal_of_zeros_in_braces.json` is refused with the code 9.
/// - `a_hyphen_in_another_place`: `cases/ids/a_hyphen_in_another_place.json` is refused with the code 9.
/// - `a_prefix_before_32_digits`: `cases/ids/a_prefix_before_32_digits.json` is refused with the code 9.
/// - `a_text_that_is_none`: `cases/ids/a_text_that_is_none.json` is refused with the code 9.
/// - `an_empty_text`: `cases/ids/an_empty_text.json` is refused with the code 9.
/// - `behind_the_prefix`: `cases/ids/behind_the_prefix.json` has this transcript.
/// - `in_braces`: `cases/ids/in_braces.json` has this transcript.
/// - `of_32_digits`: `cases/ids/of_32_digits.json` has this transcript.
/// - `of_zeros`: `cases/ids/of_zeros.json` is refused with the code 9.
pub fn ids_cases()
    ensures ids_32_digits_in_braces { refusal_of worked.ids_32_digits_in_braces_document ≡ Some code.Id }
    ensures a_cancel_of_zeros { transcript_of worked.a_cancel_of_zeros_document ≡ Some worked.a_cancel_of_zeros_transcript }
    ensures a_goal_of_zeros { refusal_of worked.a_goal_of_zeros_document ≡ Some code.Id }
    ensures a_goal_of_zeros_behind_the_prefix { refusal_of worked.a_goal_of_zeros_behind_the_prefix_document ≡ Some code.Id }
    ensures a_goal_of_zeros_in_braces { refusal_of worked.a_goal_of_zeros_in_braces_document ≡ Some code.Id }
    ensures a_hyphen_in_another_place { refusal_of worked.a_hyphen_in_another_place_document ≡ Some code.Id }
    ensures a_prefix_before_32_digits { refusal_of worked.a_prefix_before_32_digits_document ≡ Some code.Id }
    ensures a_text_that_is_none { refusal_of worked.a_text_that_is_none_document ≡ Some code.Id }
    ensures an_empty_text { refusal_of worked.an_empty_text_document ≡ Some code.Id }
    ensures behind_the_prefix { transcript_of worked.behind_the_prefix_document ≡ Some worked.behind_the_prefix_transcript }
    ensures in_braces { transcript_of worked.in_braces_document ≡ Some worked.in_braces_transcript }
    ensures of_32_digits { transcript_of worked.of_32_digits_document ≡ Some worked.of_32_digits_transcript }
    ensures of_zeros { refusal_of worked.of_zeros_document ≡ Some code.Id }
{}

//! Worked cases: json.
ghost use Rattle.std.specs.Prelude.{◌≡◌, Some};
ghost use Rattle.exec_doc.specs.Refusals.{refusal_of};
ghost use Rattle.exec_doc.specs.declared.refused.Refused.TheVariants as code;
ghost use Rattle.exec_worked.specs.Answer.{transcript_of};
ghost use Rattle.exec_worked.specs.Json as worked;

/// - `json_127_levels`: `cases/json/127_levels.json` has this transcript.
/// - `json_128_levels`: `cases/json/128_levels.json` is refused with the code 1.
/// - `a_brace_too_many`: `cases/json/a_brace_too_many.json` is refused with the code 1.
/// - `a_byte_255_in_a_name`: `cases/json/a_byte_255_in_a_name.json` is refused with the code 1.
/// - `a_byte_order_mark`: `cases/json/a_byte_order_mark.json` is refused with the code 1.
/// - `a_comma_at_the_end`: `cases/json/a_comma_at_the_end.json` is refused with the code 1.
/// - `a_comment`: `cases/json/a_comment.json` is refused with the code 1.
/// - `a_line_feed_in_a_text`: `cases/json/a_line_feed_in_a_text.json` is refused with the code 1.
/// - `a_number_beyond_floats`: `cases/json/a_number_beyond_floats.json` is refused with the code 1.
/// - `a_number_that_begins_with_0`: `cases/json/a_number_that_begins_with_0.json` is refused with the code 1.
/// - `bytes_that_are_no_text`: `cases/json/bytes_that_are_no_text.json` is refused with the code 1.
/// - `cut_off`: `cases/json/cut_off.json` is refused with the code 1.
/// - `deep_lists_in_an_unknown_field`: `cases/json/deep_lists_in_an_unknown_field.json` is refused with the code 1.
/// - `half_of_a_surrogate_pair`: `cases/json/half_of_a_surrogate_pair.json` is refused with the code 1.
/// - `nothing`: `cases/json/nothing.json` is refused with the code 1.
/// - `single_quotes`: `cases/json/single_quotes.json` is refused with the code 1.
/// - `spaces_round_it`: `cases/json/spaces_round_it.json` has this transcript.
/// - `the_last_of_two_versions`: `cases/json/the_last_of_two_versions.json` has this transcript.
/// - `two_documents`: `cases/json/two_documents.json` is refused with the code 1.
/// - `with_text_behind_it`: `cases/json/with_text_behind_it.json` is refused with the code 1.
pub fn json_cases()
    ensures json_127_levels { transcript_of worked.json_127_levels_document ≡ Some worked.json_127_levels_transcript }
    ensures json_128_levels { refusal_of worked.json_128_levels_document ≡ Some code.NotJson }
    ensures a_brace_too_many { refusal_of worked.a_brace_too_many_document ≡ Some code.NotJson }
    ensures a_byte_255_in_a_name { refusal_of worked.a_byte_255_in_a_name_document ≡ Some code.NotJson }
    ensures a_byte_order_mark { refusal_of worked.a_byte_order_mark_document ≡ Some code.NotJson }
    ensures a_comma_at_the_end { refusal_of worked.a_comma_at_the_end_document ≡ Some code.NotJson }
    ensures a_comment { refusal_of worked.a_comment_document ≡ Some code.NotJson }
    ensures a_line_feed_in_a_text { refusal_of worked.a_line_feed_in_a_text_document ≡ Some code.NotJson }
    ensures a_number_beyond_floats { refusal_of worked.a_number_beyond_floats_document ≡ Some code.NotJson }
    ensures a_number_that_begins_with_0 { refusal_of worked.a_number_that_begins_with_0_document ≡ Some code.NotJson }
    ensures bytes_that_are_no_text { refusal_of worked.bytes_that_are_no_text_document ≡ Some code.NotJson }
    ensures cut_off { refusal_of worked.cut_off_document ≡ Some code.NotJson }
    ensures deep_lists_in_an_unknown_field { refusal_of worked.deep_lists_in_an_unknown_field_document ≡ Some code.NotJson }
    ensures half_of_a_surrogate_pair { refusal_of worked.half_of_a_surrogate_pair_document ≡ Some code.NotJson }
    ensures nothing { refusal_of worked.nothing_document ≡ Some code.NotJson }
    ensures single_quotes { refusal_of worked.single_quotes_document ≡ Some code.NotJson }
    ensures spaces_round_it { transcript_of worked.spaces_round_it_document ≡ Some worked.spaces_round_it_transcript }
    ensures the_last_of_two_versions { transcript_of worked.the_last_of_two_versions_document ≡ Some worked.the_last_of_two_versions_transcript }
    ensures two_documents { refusal_of worked.two_documents_document ≡ Some code.NotJson }
    ensures with_text_behind_it { refusal_of worked.with_text_behind_it_document ≡ Some code.NotJson }
{}

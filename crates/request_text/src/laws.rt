ghost use Rattle.request_text.specs.Laws.{RequestsAreSpelled, RefusedAreFaulty};

use line_text::law_one_spelling;

/// A text is a file of some requests exactly where the plain grammar spells them: it has at most
/// 1,048,576 bytes, the words of each line that is kept are the decimal digits of a request's four
/// numbers, one line a request, and there are at most 4,096 requests, each in its ranges.
pub fn law_requests_are_spelled()
    ensures { RequestsAreSpelled }
{
    law_one_spelling();
}

/// A text is refused exactly where it is too long, or has a line that is refused after lines that
/// are requests: the first such line is the place.
pub fn law_first_refusal()
    ensures { RefusedAreFaulty }
{
    law_one_spelling();
}

/// Why a call is refused.
#[derive(Clone, Copy, Debug, PartialEq, Eq)]
pub(crate) struct Refusal {
    pub(crate) number: u8,
    pub(crate) detail: u32,
}

/// A refusal by this question, with this detail.
pub(crate) fn refused(number: u8, detail: u32) -> Refusal {
    Refusal { number, detail }
}

/// The first question that is answered no, where each stands under its number.
pub(crate) fn first_no(questions: &[(u8, bool)]) -> Option<Refusal> {
    questions
        .iter()
        .find(|(_, answer)| !*answer)
        .map(|(number, _)| refused(*number, 0))
}

use pads_describe::Verdict;
use pads_question::QuestionFault;

/// Why an order is refused.
#[derive(Clone, Copy, Debug, PartialEq, Eq)]
pub(crate) enum Reason {
    /// The description isn't accepted.
    Description(Verdict),
    /// An item of the mask, counted from 1, names no declaration.
    MaskItem(u64),
    /// The path or the filter isn't one, or doesn't suit the description.
    Question(QuestionFault),
    /// The module has more instructions than an image may have.
    ImageTooLarge,
    /// The record types have more parts than a summary counts for.
    SummaryTooLarge,
}

//! The forms in which the text of a process shows a monitor.

/// The form in which a monitor is shown.
#[derive(Clone, Copy)]
pub(crate) enum Form {
    /// A part of the line of all monitors.
    Part,
    /// A line of its own.
    Line,
}

/// What a run is handed, but for the report, on which nothing is written before the run has ended.
#[derive(Drop)]
pub(crate) struct Devices<'a, S, O, F, C, T> {
    pub(crate) input: &'a mut S,
    pub(crate) out: &'a mut O,
    pub(crate) files: &'a mut F,
    pub(crate) clock: &'a C,
    pub(crate) gate: &'a T,
}

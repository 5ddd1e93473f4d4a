// The five lists of a catalogue.
#[derive(Clone, Copy)]
pub enum ListName {
    Entities,
    Links,
    Rights,
    Members,
    Lines,
}

/// A message flow of a link: a payload in bytes, sent once every cycle of so many milliseconds. The default fills places that
/// hold no flow yet.
#[derive(Clone, Copy, Debug, Default, PartialEq, Eq)]
pub struct Flow {
    pub name: u16,
    pub link: u16,
    pub payload: u16,
    pub cycle: u16,
}

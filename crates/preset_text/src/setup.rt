// What a preset text stands for: the kind of a meter, and its preset.
use crate::kind::Kind;
use preset::Preset;

#[derive(Clone, Copy, PartialEq, Eq, Debug)]
pub struct Setup {
    pub kind: Kind,
    pub preset: Preset,
}

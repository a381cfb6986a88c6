use crate::mask::Mask;

/// What the token lists of copies come to.
#[derive(Drop)]
pub enum Verdict {
    /// They agree but for these places.
    Agreed(Mask),
    /// At the least place with a fault this copy differs.
    Disagree { copy: u8, place: u32 },
    /// At the least place with a fault more differs than may be masked.
    Noise { place: u32 },
}

// Names as numbers: what eight bytes are compared by where padding at the end does not count.
ghost use Rattle.std.specs.Prelude.{◌≡◌};
ghost use Rattle.terms.specs.Shortcuts.{name_solid, pattern_of, matches as is_match};

// In each byte all bits but the one by which a space differs from a zero.
const SOLID: u64 = 0xDFDF_DFDF_DFDF_DFDF;

// What is solid of a name, by which names are told apart at a glance. Of equal names it is equal.
#[tactic(auto, using(crate::proofs::PatternLaws::solid_is))]
pub fn solid_of(name: &[u8; 8]) -> u64
    ensures { result ≡ name_solid name.now }
{
    u64::from_le_bytes(*name) & SOLID
}

// What a name is compared by: the number in its normal form, and the bits of another name that are to be those of that number.
#[derive(Clone, Copy)]
pub struct Pattern {
    pub word: u64,
    pub mask: u64,
}

// The pattern of a name. The zeros and spaces at its end are the highest bytes of its number: those above the highest bit that
// is solid.
#[tactic(auto, using(crate::proofs::PatternLaws::padding_small))]
pub fn pattern_of(name: &[u8; 8]) -> Pattern
    ensures { result ≡ pattern_of name.now }
{
    let all = u64::from_le_bytes(*name);
    let solid = all & SOLID;
    if solid == 0 {
        return Pattern {
            word: 0,
            mask: SOLID,
        };
    }
    let padding = solid.leading_zeros() / 8 * 8;
    let kept = u64::MAX >> padding;
    Pattern {
        word: all & kept,
        mask: kept | SOLID,
    }
}

// A name has this pattern.
#[tactic(auto, using(crate::proofs::PatternLaws::match_is))]
pub fn matches(name: &[u8; 8], pattern: Pattern) -> bool
    ensures { result ≡ is_match name.now pattern }
{
    u64::from_le_bytes(*name) & pattern.mask == pattern.word
}

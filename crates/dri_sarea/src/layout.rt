//! The fields of the shared area, by their bytes and their ranges. Reading and writing go by these same lists.

ghost use Rattle.std.specs.Prelude.{◌≡◌, ◌≤◌, [], ◌∷◌};
ghost use Rattle.dri_sarea.specs.Layouts.{bytes_in, holds, byte, number, drawable_fields, entry_fields};
ghost use Rattle.dri_sarea.specs.declared.layout.Range.TheVariants.{Any, Within, RegionSize};

/// How many bytes an image has.
pub const LENGTH: usize = 8192;

/// Where the padding after the lock word begins.
pub const PADDING: usize = 4;

/// How many bytes the padding has.
pub const PADDING_SIZE: usize = 60;

/// Where the drawable lock begins.
pub const DRAWABLE_LOCK: usize = PADDING + PADDING_SIZE;

/// How many bytes the drawable lock has.
pub const DRAWABLE_LOCK_SIZE: usize = 64;

/// Where the drawables begin.
pub const DRAWABLES: usize = DRAWABLE_LOCK + DRAWABLE_LOCK_SIZE;

/// How many drawables there are.
pub const DRAWABLE_COUNT: usize = 256;

/// How many bytes a drawable has.
pub const DRAWABLE_SIZE: usize = 8;

/// Where the frame begins, with which the numbers begin.
pub const FRAME: usize = DRAWABLES + DRAWABLE_COUNT * DRAWABLE_SIZE;

/// Where the frame's width stands.
pub const WIDTH: usize = FRAME + 8;

/// Where the frame's height stands.
pub const HEIGHT: usize = FRAME + 12;

/// Where the owner stands.
pub const OWNER: usize = FRAME + 24;

/// Where the global age stands.
pub const AGE: usize = FRAME + 28;

/// Where the number of regions stands.
pub const REGION_COUNT: usize = FRAME + 32;

/// Where the size of a region stands.
pub const REGION_SIZE: usize = FRAME + 36;

/// Where the entries of the list of regions begin.
pub const ENTRIES: usize = FRAME + 40;

/// How many entries there are.
pub const ENTRY_COUNT: usize = 65;

/// How many bytes an entry has.
pub const ENTRY_SIZE: usize = 8;

/// Where the rest begins.
pub const REST: usize = ENTRIES + ENTRY_COUNT * ENTRY_SIZE;

/// How many bytes the rest has.
pub const REST_SIZE: usize = LENGTH - REST;

/// How many bytes a field has: one, or the four of a number.
#[derive(Clone, Copy)]
pub enum Width {
    Byte,
    Number,
}

/// The numbers that a field may hold: any, those from the first to the second, or the sizes of a region.
#[derive(Clone, Copy)]
pub enum Range {
    Any,
    Within(u32, u32),
    RegionSize,
}

/// A field: its bytes and its range.
#[derive(Clone, Copy)]
pub struct Field {
    pub width: Width,
    pub range: Range,
}

impl Width {
    /// How many bytes that is.
    pub fn bytes(self) -> usize
        ensures { result ≡ bytes_in self }
    {
        match self {
            Width::Byte => 1,
            Width::Number => 4,
        }
    }
}

impl Range {
    /// Whether the number is in the range.
    pub fn holds(self, value: u32) -> bool
        ensures { result ≡ holds self value }
    {
        match self {
            Range::Any => true,
            Range::Within(least, most) => least <= value && value <= most,
            Range::RegionSize => dri_base::is_region_size(value),
        }
    }
}

// A field of one byte.
fn byte(range: Range) -> Field
    ensures { result ≡ byte range }
{
    Field {
        width: Width::Byte,
        range,
    }
}

// A field of four bytes.
fn number(range: Range) -> Field
    ensures { result ≡ number range }
{
    Field {
        width: Width::Number,
        range,
    }
}

/// The lock word.
pub fn word() -> Field
    ensures { result ≡ number Any }
{
    number(Range::Any)
}

/// A byte that is 0.
pub fn zero() -> Field
    ensures { result ≡ byte (Within 0 0) }
{
    byte(Range::Within(0, 0))
}

/// A drawable's stamp and flags.
pub fn drawable() -> [Field; 2]
    ensures { result ≡ drawable_fields }
{
    [number(Range::Any), number(Range::Within(0, 1))]
}

/// The frame, the dummy context, the owner, the global age, the number of regions and their size.
pub fn numbers() -> [Field; 10]
    ensures { result ≡ number (Within 0 0) ∷ number (Within 0 0) ∷ number (Within 1 1024) ∷ number (Within 1 1024) ∷ number (Within 0 0) ∷ number (Within 0 0) ∷ number (Within 0 33) ∷ number Any ∷ number (Within 1 64) ∷ number RegionSize ∷ [] }
{
    let zero = number(Range::Within(0, 0));
    let side = number(Range::Within(1, 1024));
    [
        zero,
        zero,
        side,
        side,
        zero,
        zero,
        number(Range::Within(0, 33)),
        number(Range::Any),
        number(Range::Within(1, 64)),
        number(Range::RegionSize),
    ]
}

/// The greatest number that tells how a region is used: 0 free, 1 in use, 2 shared.
const MOST_USE: u32 = 2;

/// An entry of the list of `count` regions: next, prev, how it is used, padding, age.
pub fn entry(count: u32) -> [Field; 5]
    ensures { result ≡ entry_fields count 0 }
{
    let link = byte(Range::Within(0, count));
    [
        link,
        link,
        byte(Range::Within(0, MOST_USE)),
        zero(),
        number(Range::Any),
    ]
}

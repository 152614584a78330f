//! Laws of the definitions that the contracts use.
ghost use Rattle.std.specs.Prelude.{◌≡◌, ℕ, ◌^◌, ◌<◌, ◌≤◌, List, ◌++◌, length, ℤ, Some, true};
ghost use Rattle.std.specs.List.{All};
ghost use Rattle.std.specs.Fmt.{decimal, signed_decimal};
ghost use Rattle.det_values.specs.Limits.{IsSampleValue};
ghost use Rattle.det_io.specs.Prefix.{IsPrefix};
ghost use Rattle.stimulus.specs.Limits.{IsInput, IsLine};
ghost use Rattle.stimulus.specs.Numbers.{number, value_of};
ghost use Rattle.stimulus.specs.Lines.{line_of, spelling};
ghost use Rattle.stimulus.specs.declared.parse_line.Line.{Line};
ghost use Rattle.stimulus.specs.GoodLines.{IsHead};
ghost use Rattle.stimulus.specs.Reading.{reading, blocks, has_bad};

/// A number, a sample's value and a line have exactly one spelling each. For numbers and values it
/// is the one of `Display`.
pub fn one_spelling()
    ensures number { (n : ℕ) → n < 2 ^ 64 → number (decimal n) ≡ Some n }
    ensures only_number { (bytes : List ℕ) (n : ℕ) → number bytes ≡ Some n → n < 2 ^ 64 → bytes
        ≡ decimal n }
    ensures value { (v : ℤ) → IsSampleValue v → value_of (signed_decimal v) ≡ Some v }
    ensures only_value { (bytes : List ℕ) (v : ℤ) → value_of bytes ≡ Some v → bytes
        ≡ signed_decimal v }
    ensures line { (events : ℕ) (l : Line) → events ≤ 2 ^ 16 → IsLine events l
        → line_of events (spelling l) ≡ Some l }
    ensures only_line { (events : ℕ) (bytes : List ℕ) (l : Line) → events ≤ 2 ^ 16
        → line_of events bytes ≡ Some l → (bytes ≡ spelling l) × IsLine events l }
{}

/// More text only adds blocks, and never repairs a bad line that was fed.
pub fn more_text()
    ensures blocks { (events : ℕ) (text more : List ℕ)
        → IsPrefix (blocks events text) (blocks events (text ++ more)) }
    ensures bad { (events : ℕ) (text more : List ℕ) → has_bad events text ≡ true
        → reading events (text ++ more) ≡ reading events text }
{}

/// The blocks of every text are within the limits of a run.
pub fn limits()
    ensures few { (events : ℕ) (text : List ℕ) → length (blocks events text) ≤ 1000000 }
    ensures inputs { (events : ℕ) (text : List ℕ) → All (IsInput events) (blocks events text) }
{}

/// `good_lines`, `blocks`, `ending` and `has_bad` agree with the table of lines. They are the
/// longest list of good whole lines, and the inputs of its complete blocks. Then come the bad line
/// or the end, and whether the line after them counts as fed.
pub fn longest_head()
    ensures { (events : ℕ) (text : List ℕ) → IsHead events text }
{}

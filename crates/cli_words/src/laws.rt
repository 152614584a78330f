//! Laws of the grammar of commands. They check the definitions that the contracts cite.
ghost use Rattle.std.specs.Prelude.{◌≡◌, ℕ, ◌^◌, ◌<◌, ◌↔◌, List, ◌∷◌, ◌++◌, Some, All};
ghost use Rattle.std.specs.Fmt.{decimal};
ghost use Rattle.cli_words.specs.declared.table.OptionWord.{OptionWord};
ghost use Rattle.cli_words.specs.Number.{number_of};
ghost use Rattle.cli_words.specs.Table.{option_row};
ghost use Rattle.cli_words.specs.Command.{CommandValue};
ghost use Rattle.cli_words.specs.Ranges.{IsWithin, IsInRange};
ghost use Rattle.cli_words.specs.Reading.{command_of};
ghost use Rattle.cli_words.specs.Items.{Item, option, IsItem, IsSpelling, words_in, words_of};

/// A 64-bit number has exactly one spelling, its decimal.
pub fn word_spelling_law()
    ensures spelling { (word : List ℕ) (n : ℕ) → n < 2 ^ 64
        → (number_of word ≡ Some n) ↔ (word ≡ decimal n) }
    ensures limit { (word : List ℕ) (n : ℕ) → number_of word ≡ Some n → n < 2 ^ 64 }
{}

/// Every command that is read keeps to its row of the table.
pub fn option_range_law()
    ensures { (words : List (List ℕ)) (command : CommandValue)
        → command_of words ≡ Some command → IsInRange command }
{}

/// A command that keeps to its row is read from its canonical arguments.
pub fn canonical_words_law()
    ensures { (command : CommandValue)
        → IsInRange command → command_of (words_of command) ≡ Some command }
{}

/// Exactly these arguments are a command: in their long form, the word of a row, then names and
/// options in any order that keep to the row. Each option comes at most once, with its value right
/// after it.
pub fn command_grammar_law()
    ensures { (words : List (List ℕ)) (command : CommandValue)
        → (command_of words ≡ Some command) ↔ (IsInRange command × IsSpelling words command) }
{}

/// The place of an option, with its value, among the names and options changes nothing.
pub fn option_position_law()
    ensures { (first : List ℕ) (front back : List Item) (word : OptionWord) (value : ℕ)
        → All IsItem front → All IsItem back → IsWithin (option_row word).range value
        → command_of (first ∷ words_in (front ++ option word value ∷ back))
        ≡ command_of (first ∷ words_in (option word value ∷ (front ++ back))) }
{}

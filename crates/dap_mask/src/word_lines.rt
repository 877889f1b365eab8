//! Writes lines that put words in the place of texts.
ghost use Rattle.std.specs.Prelude.{◌≡◌, ◌++◌, ◌∷◌, OnOk, string_bytes};
ghost use Rattle.serde_json.specs.Data as json;
ghost use Rattle.dap_tree.specs.Doc.{text as text_doc};
ghost use Rattle.dap_tree.specs.Json.{Reads, text_of};
ghost use Rattle.dap_words.specs.Words.{pair_of};
ghost use Rattle.dap_mask.specs.WordLines.{IsLineOf, word_line};

use dap_tree::{Tree, write_tree_to};
use dap_words::Word;
use std::alloc::{AllocError, Global};

/// Appends a line feed and the line `word TEXT WORD`. A rules file that ends in this line puts the
/// word in the place of the text.
///
/// # Errors
///
/// `AllocError`: an allocation failed. A part of the line may follow the bytes of `out`.
pub fn write_word(alloc: Global, word: Word, out: &mut Vec<u8>) -> Result<(), AllocError>
    ensures line { OnOk result (out.new.items ≡ out.old.items ++ 10 ∷ word_line (pair_of word)) }
    ensures said { OnOk result (IsLineOf (pair_of word) (word_line (pair_of word))) }
{
    let Word { text, word } = word;
    out.extend_from_slice(b"\nword ")?;
    write_text(alloc, text, out)?;
    out.push(b' ')?;
    write_text(alloc, word, out)
}

// Appends a text as a JSON string.
fn write_text(alloc: Global, text: String, out: &mut Vec<u8>) -> Result<(), AllocError>
    ensures text { OnOk result
        (out.new.items ≡ out.old.items ++ text_of (text_doc (string_bytes text))) }
    ensures read { OnOk result
        (Reads (text_of (text_doc (string_bytes text))) (json.string (string_bytes text))) }
{
    match write_tree_to(alloc, &Tree::Text(text), out) {
        Ok(()) => Ok(()),
        Err(_) => Err(AllocError),
    }
}

//! Finds the numbers of a message that are not integers of 64 bits, and proposes mask rules that
//! blank them.
use crate::head::{Head, read_kept};
use crate::lines::{Lines, fill};
use crate::rules_file::fault_in;
use crate::words::Word::{Cut, Number, Text};
use crate::words::{Name, Path, Step};
use dap_mask::MaskRules;
use dap_tree::Tree;
use json::{Reader, Scratch, Token};
use std::alloc::{AllocError, Global};
use std::str;

/// The numbers of a message that are not integers of 64 bits.
#[derive(Drop)]
struct Fractions<'m> {
    /// The path of the first number.
    first: Vec<Step<'m>>,
    /// The number of leading steps of this path that the paths of all these numbers share, counting
    /// all elements of an array as equal.
    shared: usize,
    count: u64,
}

impl<'m> Fractions<'m> {
    /// Adds the numbers in a value at a path that are also in `kept`, which is the value without
    /// the elements that rules omit.
    #[cycle(search)]
    fn search(
        &mut self,
        value: &'m Tree,
        kept: &Tree,
        path: &mut Vec<Step<'m>>,
    ) -> Result<(), AllocError> {
        match (value, kept) {
            (Tree::Whole(number), _) if *number > i128::from(u64::MAX) => {
                self.add(path.as_slice())?;
            }
            (Tree::List(items), Tree::List(kept)) => self.search_items(items, kept, path)?,
            (Tree::Object(members), Tree::Object(kept)) => {
                for (name, member) in members.iter() {
                    if let Some(kept) = kept.get(name.as_str()) {
                        path.push(Step::Member(name.as_str()))?;
                        self.search(member, kept, path)?;
                        path.pop();
                    }
                }
            }
            _ => {}
        }
        Ok(())
    }

    /// Adds the numbers in elements that are kept. An element that is omitted has another name than
    /// each element that is kept, so the next one that is kept is the first element with its name.
    #[cycle(search)]
    fn search_items(
        &mut self,
        items: &'m [Tree],
        kept: &[Tree],
        path: &mut Vec<Step<'m>>,
    ) -> Result<(), AllocError> {
        let mut rest = kept;
        for (index, item) in items.iter().enumerate() {
            if let [first, others @ ..] = rest
                && name_of(item) == name_of(first)
            {
                path.push(Step::Element(index))?;
                self.search(item, first, path)?;
                path.pop();
                rest = others;
            }
        }
        Ok(())
    }

    /// Adds the path of one more number.
    fn add(&mut self, path: &[Step<'m>]) -> Result<(), AllocError> {
        if self.count == 0 {
            self.first.extend_from_slice(path)?;
            self.shared = path.len();
        }
        let mut steps = self.first.iter().zip(path);
        let apart = steps.position(|pair| match pair {
            (Step::Element(_), Step::Element(_)) => false,
            (step, other) => step != other,
        });
        self.shared = apart.unwrap_or(path.len()).min(self.shared);
        self.count = self.count.saturating_add(1);
        Ok(())
    }
}

/// Returns the `name` of an element, by which rules omit it.
fn name_of(element: &Tree) -> Option<&str> {
    match element.child("name")? {
        Tree::Text(name) => Some(name.as_str()),
        _ => None,
    }
}

/// Returns why the text of a number is not an integer of 64 bits.
fn fault_of(text: &str) -> &'static str {
    if text == "-0" {
        "is minus zero"
    } else if text.contains('.') {
        "has a fraction"
    } else if text.contains('e') || text.contains('E') {
        "has an exponent"
    } else {
        "does not fit 64 bits"
    }
}

/// Moves a path past a token.
fn take<'t>(path: &mut Vec<Step<'t>>, token: Token<'t>) -> Result<(), AllocError> {
    match token {
        Token::BeginObject => return Ok(path.push(Step::Member(""))?),
        Token::BeginArray => return Ok(path.push(Step::Element(0))?),
        Token::EndObject | Token::EndArray => {
            path.pop();
        }
        _ => {}
    }
    match (token, path.last_mut()) {
        (Token::Key(name), Some(step)) => *step = Step::Member(name),
        (_, Some(Step::Element(index))) => *index = index.saturating_add(1),
        _ => {}
    }
    Ok(())
}

/// Returns the unchanged text of the number at a path of a JSON text. If a member name occurs twice
/// in an object, the last one counts.
fn number_text<'t>(
    alloc: Global,
    content: &'t str,
    scratch: &'t mut Scratch<Global>,
    path: &[Step<'_>],
) -> Result<Option<&'t str>, AllocError> {
    let mut reader = Reader::new(content, scratch)?;
    let mut here = Vec::new(alloc);
    let mut found = None;
    while let Some(token) = reader.next() {
        match token {
            Token::Number(text) if here.as_slice() == path => found = Some(text),
            _ => {}
        }
        take(&mut here, token)?;
    }
    Ok(found)
}

/// Adds the line that states which number is at a path, and what is wrong with it.
fn add_number<'p>(lines: &mut Lines, path: &'p str, number: &'p str) {
    fill!(lines; "{0} is {1}, which {2}; dapnorm takes only integers of 64 bits",
        Text(path), Cut(number), Text(fault_of(number)));
}

/// Adds the line about the number at a path in a JSON text.
fn add_number_at(lines: &mut Lines, content: &str, steps: &[Step<'_>]) {
    let mut scratch = Scratch::new(lines.alloc);
    let text = number_text(lines.alloc, content, &mut scratch, steps);
    if let Some(Some(text)) = lines.value_of(text) {
        let is_of_rule = false;
        let path = lines.display(Path { steps, is_of_rule });
        add_number(lines, path.as_str(), text);
    }
}

/// The maximum number of bytes of a proposed rule.
const LONGEST_RULE: usize = 500;

/// Adds the line with the rule that blanks `what`, if it is a valid mask rule. Returns whether it
/// is.
fn add_rule(lines: &mut Lines, head: Head<'_>, what: &str, steps: &[Step<'_>]) -> bool {
    let (Some(kind), Some(name)) = (head.kind, head.name()) else {
        return false;
    };
    let (kind, name, is_of_rule) = (kind.word(), Name(name), true);
    let place = Path { steps, is_of_rule };
    let rule = lines.display(format_args!("blank {kind} {name} {place}"));
    let rule = rule.as_str();
    let is_rule = rule.len() <= LONGEST_RULE && fault_in(lines, rule.as_bytes()).is_none();
    if is_rule {
        fill!(lines; "to blank {0}, write into a rules file: {1}", Text(what), Text(rule));
    }
    is_rule
}

/// Adds the lines about the numbers of a message that were found. `content` is its text.
fn add_found(lines: &mut Lines, content: &[u8], found: &Fractions<'_>, head: Head<'_>) {
    let path = found.first.as_slice();
    if let Ok(text) = str::from_utf8(content) {
        add_number_at(lines, text, path);
    }
    match found.count {
        1 => {}
        2 => lines.add("one more number of this record is not an integer of 64 bits"),
        count => fill!(lines; "{0} more numbers of this record are not integers of 64 bits",
            Number(count.saturating_sub(1))),
    }
    let has_first = add_rule(lines, head, "this number", path);
    let has_shared = found.shared < path.len()
        && add_rule(lines, head, "all of them", &path[..found.shared]);
    lines.add(if has_first || has_shared {
        "apply the rules file with dapnorm mask RULES or dapnorm golden --rules RULES"
    } else {
        "no rule of a mask changes it: let the program that sent it write an integer"
    });
}

/// Explains that a number of a message is not an integer of 64 bits. `content` is the text of the
/// message, and `message` its tree after the rules are applied, but with the elements that they
/// omit.
pub(crate) fn explain_fraction(
    lines: &mut Lines,
    content: &[u8],
    rules: Option<&MaskRules>,
    message: &Tree,
    head: Head<'_>,
) {
    let Some(kept) = read_kept(lines, content, rules) else {
        return;
    };
    let mut found = Fractions {
        first: Vec::new(lines.alloc),
        shared: 0,
        count: 0,
    };
    let mut path = Vec::new(lines.alloc);
    let searched = found.search(message, &kept, &mut path);
    if lines.value_of(searched).is_some() && found.count > 0 {
        add_found(lines, content, &found, head);
    }
}

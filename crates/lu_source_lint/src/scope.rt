//! What the names of a source are, for its messages.

use crate::foreign_table::declares_name;
use crate::meaning::{is_inline, opens, word_is};
use crate::spelling::is_near;
use indexmap::IndexMap;
use lu_source_text::{is_free_name, source_words, statements_of};
use lu_text::value_in;
use std::alloc::{AllocError, Global};

/// What a name is declared as.
#[derive(Clone, Copy, PartialEq, Eq)]
pub(crate) enum Declared {
    Object,
    Constant,
    Word,
    Array,
    Lock,
    Operation,
    Argument,
    Local,

    /// A name that a line in the words of another language declares.
    Lost,
}

impl Declared {
    /// Whether it shares its set of names with words, locks, constants and locals.
    fn is_value(self) -> bool {
        !matches!(self, Declared::Object | Declared::Operation)
    }

    /// What it is, in words.
    pub(crate) fn words(self) -> &'static str {
        match self {
            Declared::Object => "the object",
            Declared::Constant => "a constant",
            Declared::Word => "a shared word",
            Declared::Array => "an array",
            Declared::Lock => "a lock",
            Declared::Operation => "an operation",
            Declared::Argument => "an argument",
            Declared::Local => "a local",
            Declared::Lost => "a name",
        }
    }
}

/// A name that is declared.
#[derive(Clone, Copy, Drop)]
struct Declaration<'a> {
    name: &'a [u8],
    kind: Declared,

    /// How many blocks there are around it.
    depth: usize,
}

/// A block that is open.
#[derive(Clone, Copy, Drop)]
struct Block {
    /// The line that began it, counted from 1.
    line: usize,

    /// How far that line is indented.
    indent: usize,

    /// The word that began it: `op`, `if`, `else if`, `else`, `while` or `loop`.
    word: &'static str,
}

/// A shared word, a lock or a constant that is declared below.
#[derive(Clone, Copy, Drop)]
struct Later<'a> {
    name: &'a [u8],

    /// Its line, counted from 1.
    line: usize,
}

/// What leaves a block, so that no line after it in the block is reached.
#[derive(Clone, Copy, Drop)]
pub(crate) struct Leaving {
    /// `return`, `break` or `continue`; `loop` for one that is closed, or `else` for the end of an
    /// `if` with `else`.
    pub(crate) word: &'static str,

    /// Its line, counted from 1.
    pub(crate) line: usize,
}

/// What the lines above a line declare, and what is open there.
#[derive(Drop)]
pub(crate) struct Scope<'a> {
    /// What is declared in the blocks that are open, that of the innermost last.
    names: Vec<Declaration<'a>>,

    /// The numbers that constants stand for, where their lines say one.
    constants: IndexMap<Vec<u8>, u32>,

    /// The blocks in which the line is, the innermost last.
    open: Vec<Block>,

    /// The line of the first block that was closed by a `}` that is indented less.
    unclosed: Option<usize>,

    /// What may have left the innermost block last.
    leaving: Option<Leaving>,

    /// How many lines with words the operation has in which the line is.
    lines: usize,

    /// Whether a line sets `local`.
    has_local: bool,

    /// What is declared below.
    later: Vec<Later<'a>>,

    /// Whether the next line is only a `{`.
    brace_below: bool,
}

/// How many blanks a line begins with.
fn indent_of(line: &[u8]) -> usize {
    line.iter()
        .take_while(|byte| matches!(**byte, b' ' | b'\t'))
        .count()
}

/// What a line that begins with this word declares its second word as.
fn kind_of(words: &[&[u8]]) -> Option<Declared> {
    let first = words.first()?;
    match *first {
        b"object" => Some(Declared::Object),
        b"const" => Some(Declared::Constant),
        b"word" if word_is(words, 2, b"[") => Some(Declared::Array),
        b"word" => Some(Declared::Word),
        b"lock" => Some(Declared::Lock),
        b"op" => Some(Declared::Operation),
        b"let" => Some(Declared::Local),
        word if declares_name(word) => Some(Declared::Lost),
        _ => None,
    }
}

/// Whether a line begins a block, also where its `{` is missing; a `{` alone belongs to the line
/// above. An `if` that has no braces begins none.
fn begins_block(words: &[&[u8]]) -> bool {
    let is_whole = words.last().is_some_and(|word| *word == b"}".as_slice());
    if word_is(words, 0, b"{") || is_whole || is_inline(words) {
        return false;
    }
    opens(words)
        || word_is(words, 0, b"op")
        || word_is(words, 0, b"if")
        || word_is(words, 0, b"while")
        || word_is(words, 0, b"loop")
        || begins_else(words)
}

/// Whether a line begins the last block of an `if`, whose test is false.
fn begins_else(words: &[&[u8]]) -> bool {
    word_is(words, 0, b"else") || word_is(words, 1, b"else")
}

/// The word that begins the block of a line.
fn block_word(words: &[&[u8]]) -> &'static str {
    if word_is(words, 0, b"op") {
        "op"
    } else if word_is(words, 0, b"while") {
        "while"
    } else if word_is(words, 0, b"loop") {
        "loop"
    } else if word_is(words, 1, b"else") && word_is(words, 2, b"if") {
        "else if"
    } else if begins_else(words) {
        "else"
    } else {
        "if"
    }
}

/// Whether a line that begins with this word declares a shared word, a lock or a constant.
fn is_outer(first: &[u8]) -> bool {
    first == b"word".as_slice() || first == b"lock".as_slice() || first == b"const".as_slice()
}

/// The word of a line that leaves its block.
fn leaving_word(words: &[&[u8]]) -> Option<&'static str> {
    match *words.first()? {
        b"return" => Some("return"),
        b"break" => Some("break"),
        b"continue" => Some("continue"),
        _ => None,
    }
}

impl<'a> Scope<'a> {
    /// The scope of the line after those above, where these are below.
    pub(crate) fn between(
        alloc: Global,
        above: &[&'a [u8]],
        below: &[&'a [u8]],
    ) -> Result<Scope<'a>, AllocError> {
        let mut scope = Scope::after(alloc, above)?;
        let first = above.len().saturating_add(2);
        for (index, line) in below.iter().enumerate() {
            let words = source_words(alloc, line)?;
            scope.brace_below |= index == 0 && words.len() == 1 && word_is(&words, 0, b"{");
            scope.declare_below(first.saturating_add(index), &words)?;
        }
        Ok(scope)
    }

    /// Adds what a line below with these words declares.
    fn declare_below(&mut self, line: usize, words: &[&'a [u8]]) -> Result<(), AllocError> {
        if word_is(words, 0, b"op") {
            return self.declare_named(words, Declared::Operation, 0);
        }
        if let [first, name, ..] = words {
            if is_outer(first) {
                self.later.push(Later { name, line })?;
            }
        }
        Ok(())
    }

    /// The scope of the line after these.
    pub(crate) fn after(alloc: Global, lines: &[&'a [u8]]) -> Result<Scope<'a>, AllocError> {
        let mut scope = Scope {
            names: Vec::new(alloc),
            constants: IndexMap::new(alloc),
            open: Vec::new(alloc),
            unclosed: None,
            leaving: None,
            lines: 0,
            has_local: false,
            later: Vec::new(alloc),
            brace_below: false,
        };
        for (index, line) in lines.iter().enumerate() {
            let words = source_words(alloc, line)?;
            for statement in statements_of(alloc, &words)? {
                scope.pass(alloc, index.saturating_add(1), line, &statement)?;
            }
        }
        Ok(scope)
    }

    /// Goes past a statement of a line, which has this number.
    pub(crate) fn pass(
        &mut self,
        alloc: Global,
        number: usize,
        line: &[u8],
        statement: &[&'a [u8]],
    ) -> Result<(), AllocError> {
        self.declare(alloc, statement)?;
        self.count(statement);
        self.nest(number, indent_of(line), statement)
    }

    /// Adds a name that is declared so, with this many blocks around it.
    fn add(&mut self, name: &'a [u8], kind: Declared, depth: usize) -> Result<(), AllocError> {
        self.names.push(Declaration { name, kind, depth })?;
        Ok(())
    }

    /// Adds the second of these words, which are declared so, where it may be a name.
    fn declare_named(
        &mut self,
        words: &[&'a [u8]],
        kind: Declared,
        depth: usize,
    ) -> Result<(), AllocError> {
        match words.get(1) {
            Some(name) if is_free_name(name) => self.add(name, kind, depth),
            _ => Ok(()),
        }
    }

    /// Adds the name that these words declare in another language.
    fn declare_lost(&mut self, words: &[&'a [u8]], depth: usize) -> Result<(), AllocError> {
        let (_, named) = words.split_at(words.len().min(1));
        let name = named.iter().find(|word| {
            is_free_name(word) && !declares_name(word) && **word != b"mut".as_slice()
        });
        match name {
            Some(name) => self.add(name, Declared::Lost, depth),
            None => Ok(()),
        }
    }

    /// Notes the number that a constant stands for, which is declared by these words.
    fn note_constant(&mut self, alloc: Global, words: &[&'a [u8]]) -> Result<(), AllocError> {
        let (Some(name), Some(word)) = (words.get(1), words.get(3)) else {
            return Ok(());
        };
        let Some(value) = self.number(word) else {
            return Ok(());
        };
        if words.len() == 4 && !self.constants.contains_key(*name) {
            self.constants.insert(Vec::from_slice(alloc, name)?, value)?;
        }
        Ok(())
    }

    /// Adds the arguments of an operation that is declared by these words.
    fn declare_arguments(&mut self, words: &[&'a [u8]], depth: usize) -> Result<(), AllocError> {
        for word in words.iter().skip(2) {
            if is_free_name(word) {
                self.add(word, Declared::Argument, depth)?;
            }
        }
        Ok(())
    }

    /// Adds what a line with these words declares. In an operation, `lock NAME` declares nothing.
    fn declare(&mut self, alloc: Global, words: &[&'a [u8]]) -> Result<(), AllocError> {
        let depth = self.open.len();
        let Some(kind) = kind_of(words) else {
            return Ok(());
        };
        if kind == Declared::Lock && depth > 0 {
            return Ok(());
        }
        if kind == Declared::Lost {
            return self.declare_lost(words, depth);
        }
        self.declare_named(words, kind, depth)?;
        match kind {
            Declared::Local if word_is(words, 1, b"mut") => self.declare_lost(words, depth),
            Declared::Constant => self.note_constant(alloc, words),
            Declared::Operation => self.declare_arguments(words, depth.saturating_add(1)),
            _ => Ok(()),
        }
    }

    /// Counts a line with these words, where it is in an operation, and notes a `local`.
    fn count(&mut self, words: &[&[u8]]) {
        self.has_local |= word_is(words, 0, b"local");
        if word_is(words, 0, b"op") {
            self.lines = 0;
        } else if !words.is_empty() {
            self.lines = self.lines.saturating_add(1);
        }
    }

    /// Closes the innermost block, by a line that is indented so far.
    fn close(&mut self, indent: usize) {
        self.leaving = None;
        if let Some(block) = self.open.pop() {
            let Block { line, word, .. } = block;
            if block.indent > indent && self.unclosed.is_none() {
                self.unclosed = Some(line);
            }
            if word == "loop" || word == "else" {
                self.leaving = Some(Leaving { word, line });
            }
        }
        self.forget_inner();
    }

    /// Forgets what was declared in blocks that are no longer open.
    fn forget_inner(&mut self) {
        let depth = self.open.len();
        let forgotten = self
            .names
            .iter()
            .rev()
            .take_while(|declaration| declaration.depth > depth)
            .count();
        self.names
            .truncate(self.names.len().saturating_sub(forgotten));
    }

    /// Closes the block that a line closes, and opens the one that it opens.
    fn nest(&mut self, line: usize, indent: usize, words: &[&[u8]]) -> Result<(), AllocError> {
        if word_is(words, 0, b"}") {
            self.close(indent);
        }
        if let Some(word) = leaving_word(words) {
            self.leaving = Some(Leaving { word, line });
        }
        if begins_block(words) {
            self.leaving = None;
            self.open.push(Block {
                line,
                indent,
                word: block_word(words),
            })?;
        }
        Ok(())
    }

    /// Whether the line is in an operation.
    pub(crate) fn is_in_operation(&self) -> bool {
        !self.open.is_empty()
    }

    /// The line of the first open block, where that is not one of an operation.
    pub(crate) fn other_block(&self) -> Option<usize> {
        match self.open.first() {
            Some(block) if block.word != "op" => Some(block.line),
            _ => None,
        }
    }

    /// The word that began the innermost block that is open, and its line.
    pub(crate) fn innermost(&self) -> Option<(&'static str, usize)> {
        self.open.last().map(|block| (block.word, block.line))
    }

    /// Whether the next line is only a `{`.
    pub(crate) fn has_brace_below(&self) -> bool {
        self.brace_below
    }

    /// Whether the line is in a loop.
    pub(crate) fn is_in_loop(&self) -> bool {
        self.open
            .iter()
            .any(|block| block.word == "loop" || block.word == "while")
    }

    /// How many lines with words the operation has in which the line is, before that.
    pub(crate) fn lines(&self) -> usize {
        self.lines
    }

    /// What may have left the block of the line before that is reached.
    pub(crate) fn leaving(&self) -> Option<Leaving> {
        self.leaving
    }

    /// How many shared words are declared.
    pub(crate) fn shared_count(&self) -> usize {
        self.names
            .iter()
            .filter(|declaration| { matches!(declaration.kind, Declared::Word | Declared::Array) })
            .count()
    }

    /// Whether a name is that of an argument.
    pub(crate) fn is_argument(&self, name: &[u8]) -> bool {
        self.value_declared(name) == Some(Declared::Argument)
    }

    /// Whether a name may be assigned to, without an index.
    pub(crate) fn is_assigned(&self, name: &[u8]) -> bool {
        matches!(
            self.value_declared(name),
            Some(Declared::Word | Declared::Argument | Declared::Local)
        )
    }

    /// Whether a name is that of a shared word.
    pub(crate) fn is_shared(&self, name: &[u8]) -> bool {
        self.value_declared(name) == Some(Declared::Word)
    }

    /// The number that a word is, or that it stands for as a constant.
    pub(crate) fn number(&self, word: &[u8]) -> Option<u32> {
        match value_in(word) {
            Some(number) => Some(number),
            None => self.constants.get(word).copied(),
        }
    }

    /// The line whose block was not closed: the first that is indented more than the `}` that closes
    /// it, or else the innermost that is open.
    pub(crate) fn unclosed(&self) -> Option<usize> {
        match (self.unclosed, self.open.last()) {
            (Some(line), _) => Some(line),
            (None, Some(block)) => Some(block.line),
            (None, None) => None,
        }
    }

    /// Whether a line above sets `local`.
    pub(crate) fn has_local(&self) -> bool {
        self.has_local
    }

    /// Whether a line above names the object.
    pub(crate) fn has_object(&self) -> bool {
        self.names
            .iter()
            .any(|declaration| declaration.kind == Declared::Object)
    }

    /// What the name is declared as, apart from the object and the operations, which have names of
    /// their own.
    pub(crate) fn value_declared(&self, name: &[u8]) -> Option<Declared> {
        self.names
            .iter()
            .find(|declaration| declaration.kind.is_value() && declaration.name == name)
            .map(|declaration| declaration.kind)
    }

    /// What the name is declared as; the object or an operation where it is nothing else.
    pub(crate) fn declared(&self, name: &[u8]) -> Option<Declared> {
        self.value_declared(name).or(
            self.names
                .iter()
                .find(|declaration| declaration.name == name)
                .map(|declaration| declaration.kind),
        )
    }

    /// The line below that declares the name.
    pub(crate) fn line_below(&self, name: &[u8]) -> Option<usize> {
        self.later
            .iter()
            .find(|later| later.name == name)
            .map(|later| later.line)
    }

    /// How many names of these kinds are declared before the name.
    fn count_before(&self, name: &[u8], kinds: &[Declared]) -> usize {
        self.names
            .iter()
            .take_while(|declaration| declaration.name != name)
            .filter(|declaration| kinds.contains(&declaration.kind))
            .count()
    }

    /// Whether there is no room for the name, since as many are declared before it as there may be.
    pub(crate) fn is_beyond_limit(&self, name: &[u8]) -> bool {
        match self.value_declared(name) {
            Some(Declared::Word | Declared::Array) => {
                self.count_before(name, &[Declared::Word, Declared::Array]) >= 16
            }
            Some(Declared::Lost) => true,
            Some(Declared::Lock) => self.count_before(name, &[Declared::Lock]) >= 8,
            Some(Declared::Argument) => self.count_before(name, &[Declared::Argument]) >= 4,
            Some(Declared::Local) => {
                self.count_before(name, &[Declared::Argument, Declared::Local]) >= 8
            }
            _ => false,
        }
    }

    /// A declared name for which this one may be a slip.
    pub(crate) fn near(&self, name: &[u8]) -> Option<&'a [u8]> {
        self.names
            .iter()
            .find(|declaration| is_near(name, declaration.name))
            .map(|declaration| declaration.name)
    }
}

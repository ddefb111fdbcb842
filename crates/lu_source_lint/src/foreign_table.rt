//! The words of other languages that a source does not have, and what it has in their place.

/// Words of other languages that mean the same.
#[derive(Clone, Copy)]
pub(crate) struct Foreign {
    words: &'static [&'static str],

    /// What to write in their place.
    pub(crate) help: &'static str,
}

/// Statements that branch or repeat.
static BLOCKS: [Foreign; 9] = [
    Foreign {
        words: &["for", "foreach"],
        help: "write a loop `while EXPR {`",
    },
    Foreign {
        words: &["do", "repeat"],
        help: "write `loop {`, and `break` in an `if`",
    },
    Foreign {
        words: &["until"],
        help: "write `while !(EXPR) {`, or `await CELL == EXPR` to wait",
    },
    Foreign {
        words: &["unless"],
        help: "write `if !(EXPR) {`",
    },
    Foreign {
        words: &["match", "switch", "case", "default"],
        help: "write `if EXPR {` and `} else if EXPR {`",
    },
    Foreign {
        words: &["elif", "elsif", "elseif"],
        help: "write `} else if EXPR {`",
    },
    Foreign {
        words: &["either"],
        help: "write `if pick(2) == 0 {` and `} else {`",
    },
    Foreign {
        words: &["synchronized", "atomic", "with", "critical", "using"],
        help: "write `lock NAME` before the statements, and `unlock NAME` after them",
    },
    Foreign {
        words: &["try", "catch", "except", "finally", "throw", "raise"],
        help: "return a number that stands for the error",
    },
];

/// Other statements, and lines that end blocks.
static STATEMENTS: [Foreign; 9] = [
    Foreign {
        words: &["when"],
        help: "write `await CELL == EXPR` to wait",
    },
    Foreign {
        words: &["goto", "label"],
        help: "write a loop with `break` and `continue`",
    },
    Foreign {
        words: &["ret"],
        help: "write `return EXPR`",
    },
    Foreign {
        words: &["pass", "skip", "nop"],
        help: "leave it out, since a block may be empty",
    },
    Foreign {
        words: &["begin"],
        help: "begin a block with `{`",
    },
    Foreign {
        words: &["end", "endif", "endwhile", "fi", "done", "od"],
        help: "end a block with `}`",
    },
    Foreign {
        words: &["defer"],
        help: "write the statement before each `return`",
    },
    Foreign {
        words: &["unsafe"],
        help: "write its statements without a block",
    },
    Foreign {
        words: &["go", "spawn", "fork", "async", "thread", "threads", "main"],
        help: "list the calls of each thread in the matrix, after a line `---`",
    },
];

/// What other languages declare.
static DECLARATIONS: [Foreign; 9] = [
    Foreign {
        words: &["mutex", "pthread_mutex_t", "mtx_t", "spinlock"],
        help: "declare `lock NAME`",
    },
    Foreign {
        words: &[
            "rwlock",
            "semaphore",
            "sem_t",
            "condvar",
            "condition",
            "barrier",
            "channel",
        ],
        help: "model it with words, locks and `await`",
    },
    Foreign {
        words: &[
            "queue", "stack", "list", "map", "hashmap", "vec", "vector", "deque",
        ],
        help: "model it with words and arrays",
    },
    Foreign {
        words: &["array"],
        help: "declare `word NAME[LEN]`",
    },
    Foreign {
        words: &["enum", "define", "macro"],
        help: "declare `const NAME = N` for each value",
    },
    Foreign {
        words: &["struct", "class", "impl", "trait", "interface", "record"],
        help: "declare each shared field as a `word`, and each method as an `op`",
    },
    Foreign {
        words: &["import", "use", "package", "module", "mod", "namespace"],
        help: "remove the line, since a source imports nothing",
    },
    Foreign {
        words: &["type", "typedef"],
        help: "remove the line, since every value is a number from 0 to 4294967295",
    },
    Foreign {
        words: &["init", "constructor"],
        help: "write initial values in declarations, or calls in the `setup` line of the matrix",
    },
];

/// What reads, writes or updates a shared word.
static ACCESSES: [Foreign; 9] = [
    Foreign {
        words: &[
            "load",
            "get",
            "read",
            "atomic_load",
            "atomic_load_explicit",
            "loaduint32",
        ],
        help: "write the name of the word, as in `let seen = x`",
    },
    Foreign {
        words: &[
            "store",
            "set",
            "write",
            "atomic_store",
            "atomic_store_explicit",
            "storeuint32",
        ],
        help: "assign to the word, as in `x = 1`",
    },
    Foreign {
        words: &[
            "exchange",
            "xchg",
            "atomic_exchange",
            "getandset",
            "get_and_set",
        ],
        help: "write `swap(CELL, EXPR)`",
    },
    Foreign {
        words: &[
            "compare_and_swap",
            "compareandswap",
            "compareandswapuint32",
            "cmpxchg",
        ],
        help: "write `cas(CELL, OLD, NEW)`",
    },
    Foreign {
        words: &[
            "compare_and_set",
            "compareandset",
            "weakcompareandset",
            "dcas",
        ],
        help: "write `cas(CELL, OLD, NEW)`",
    },
    Foreign {
        words: &[
            "compare_exchange_weak",
            "compare_exchange_strong",
            "compareandexchange",
            "atomic_compare_exchange_weak",
            "atomic_compare_exchange_strong",
        ],
        help: "write `compare_exchange(CELL, OLD, NEW)`",
    },
    Foreign {
        words: &[
            "fetch_and_add",
            "atomic_fetch_add",
            "getandadd",
            "addandget",
            "adduint32",
            "faa",
            "xadd",
            "getandincrement",
            "incrementandget",
            "fetch_inc",
            "increment",
        ],
        help: "write `fetch_add(CELL, EXPR)`",
    },
    Foreign {
        words: &[
            "fetch_and_sub",
            "atomic_fetch_sub",
            "getanddecrement",
            "decrementandget",
            "fetch_dec",
            "decrement",
        ],
        help: "write `fetch_sub(CELL, EXPR)`",
    },
    Foreign {
        words: &[
            "test_and_set",
            "testandset",
            "tas",
            "atomic_flag_test_and_set",
        ],
        help: "write `swap(CELL, 1)`",
    },
];

/// What locks, waits, or orders accesses.
static WAITS: [Foreign; 8] = [
    Foreign {
        words: &["acquire", "pthread_mutex_lock", "mtx_lock", "spin_lock"],
        help: "write `lock NAME`",
    },
    Foreign {
        words: &[
            "release",
            "pthread_mutex_unlock",
            "mtx_unlock",
            "spin_unlock",
        ],
        help: "write `unlock NAME`",
    },
    Foreign {
        words: &[
            "try_lock",
            "trylock",
            "pthread_mutex_trylock",
            "mtx_trylock",
        ],
        help: "declare a `word` in place of the lock, and write `cas(NAME, 0, 1)`",
    },
    Foreign {
        words: &["wait", "park", "cond_wait", "pthread_cond_wait", "join"],
        help: "write `await CELL == EXPR`",
    },
    Foreign {
        words: &[
            "notify",
            "notify_one",
            "notify_all",
            "notifyall",
            "signal",
            "broadcast",
            "unpark",
            "wake",
        ],
        help: "assign to the word that the other thread awaits",
    },
    Foreign {
        words: &[
            "yield",
            "yield_now",
            "sched_yield",
            "sleep",
            "spin_loop",
            "pause",
            "cpu_relax",
        ],
        help: "wait with `await`; threads may switch at every step",
    },
    Foreign {
        words: &[
            "fence",
            "atomic_thread_fence",
            "compiler_fence",
            "memory_barrier",
            "mfence",
        ],
        help: "leave it out, since memory is sequentially consistent",
    },
    Foreign {
        words: &["fetch_and", "fetch_or", "fetch_xor", "fetch_nand"],
        help: "model each bit as a word of its own",
    },
];

/// Other functions.
static FUNCTIONS: [Foreign; 7] = [
    Foreign {
        words: &["print", "println", "printf", "log", "debug", "writeln"],
        help: "return the value, and see it in a trace",
    },
    Foreign {
        words: &[
            "assert_eq",
            "debug_assert",
            "panic",
            "abort",
            "exit",
            "unreachable",
        ],
        help: "write `assert EXPR`, which traps if EXPR is 0",
    },
    Foreign {
        words: &["new", "malloc", "calloc", "alloc", "box"],
        help: "declare an array, and let its indices be the pointers",
    },
    Foreign {
        words: &["free", "delete", "del", "drop", "dealloc"],
        help: "keep a word for each node that says whether it is in use",
    },
    Foreign {
        words: &["rand", "random", "choose", "nondet"],
        help: "write `pick(K)`, for which each number from 0 to K - 1 is tried",
    },
    Foreign {
        words: &["len", "length", "size", "sizeof"],
        help: "declare `const LEN = N` for the length of the array",
    },
    Foreign {
        words: &["max", "min", "abs"],
        help: "compare the values in an `if`",
    },
];

/// Values, operators, and words that are written before or after them.
static VALUES: [Foreign; 8] = [
    Foreign {
        words: &["null", "nil", "none", "nullptr", "undefined"],
        help: "choose a number for it, as in `const NONE = 0`",
    },
    Foreign {
        words: &["and"],
        help: "write `&&`",
    },
    Foreign {
        words: &["or"],
        help: "write `||`",
    },
    Foreign {
        words: &["not"],
        help: "write `!`",
    },
    Foreign {
        words: &["mut", "ref"],
        help: "leave it out, since a local may always be assigned",
    },
    Foreign {
        words: &["self", "this"],
        help: "leave it out, and write the name of the word alone",
    },
    Foreign {
        words: &["as"],
        help: "leave the conversion out, since every value is a number from 0 to 4294967295",
    },
    Foreign {
        words: &["then", "do"],
        help: "begin a block with `{`",
    },
];

/// Types of numbers.
static NUMBERS: [&str; 25] = [
    "int", "integer", "uint", "u8", "u16", "u32", "u64", "u128", "i8", "i16", "i32", "i64",
    "usize", "isize", "uint8_t", "uint32_t", "int32_t", "uint64_t", "int64_t", "size_t", "long",
    "short", "float", "double", "unsigned",
];

/// Other types.
static OTHER_TYPES: [&str; 15] = [
    "bool",
    "boolean",
    "char",
    "byte",
    "string",
    "str",
    "void",
    "atomic_int",
    "atomic_uint",
    "atomic_bool",
    "atomicu32",
    "atomicusize",
    "atomicbool",
    "atomicinteger",
    "_atomic",
];

/// Words before the name that is declared.
static DECLARING: [&str; 15] = [
    "var",
    "val",
    "variable",
    "variables",
    "static",
    "volatile",
    "final",
    "register",
    "auto",
    "mutable",
    "shared",
    "global",
    "nonlocal",
    "atomic",
    "pointer",
];

/// Words before the name of an operation.
static OPERATIONS: [&str; 12] = [
    "fn",
    "func",
    "function",
    "def",
    "proc",
    "procedure",
    "method",
    "sub",
    "operation",
    "process",
    "oper",
    "operator",
];

/// Words that may be left out before a declaration.
static MODIFIERS: [&str; 10] = [
    "pub",
    "public",
    "private",
    "protected",
    "export",
    "extern",
    "inline",
    "virtual",
    "abstract",
    "override",
];

/// Whether one of these is the word, capitals apart.
fn has(known: &[&str], word: &[u8]) -> bool {
    known
        .iter()
        .any(|known| word.eq_ignore_ascii_case(known.as_bytes()))
}

/// The row with the word.
fn row_with(rows: &'static [Foreign], word: &[u8]) -> Option<&'static Foreign> {
    rows.iter().find(|row| has(row.words, word))
}

/// What to write in place of a word that begins a statement or a declaration.
pub(crate) fn beginning(word: &[u8]) -> Option<&'static Foreign> {
    row_with(&BLOCKS, word)
        .or(row_with(&STATEMENTS, word))
        .or(row_with(&DECLARATIONS, word))
        .or(called(word))
}

/// What to write in place of a function or a method.
pub(crate) fn called(word: &[u8]) -> Option<&'static Foreign> {
    row_with(&ACCESSES, word)
        .or(row_with(&WAITS, word))
        .or(row_with(&FUNCTIONS, word))
}

/// What to write in place of a value or an operator.
pub(crate) fn valued(word: &[u8]) -> Option<&'static Foreign> {
    row_with(&VALUES, word)
}

/// Whether the word is a type.
pub(crate) fn is_type(word: &[u8]) -> bool {
    has(&NUMBERS, word) || has(&OTHER_TYPES, word)
}

/// Whether a name that the word declares may follow it.
pub(crate) fn is_declaring(word: &[u8]) -> bool {
    has(&DECLARING, word)
}

/// Whether a line with this word before a name declares the name.
pub(crate) fn declares_name(word: &[u8]) -> bool {
    is_type(word)
        || is_declaring(word)
        || row_with(&DECLARATIONS, word).is_some()
        || word.eq_ignore_ascii_case(b"for")
}

/// Whether the name of an operation may follow the word.
pub(crate) fn begins_operation(word: &[u8]) -> bool {
    has(&OPERATIONS, word)
}

/// Whether the word may be left out before a declaration.
pub(crate) fn is_modifier(word: &[u8]) -> bool {
    has(&MODIFIERS, word)
}

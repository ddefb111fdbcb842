//! Components, as texts.

/// Arrays, locks, waits, picks, jumps and traps in 16 operations. The text is canonical.
pub const ROWS: &str = "\
component rows\n\
word x 1 0\n\
word y 1 0\n\
word a 2 0\n\
lock m\n\
lock n\n\
op inc 0\n\
load r0 x 0\n\
add r0 r0 1\n\
store x 0 r0\n\
return r0\n\
end\n\
op get 0\n\
load r0 x 0\n\
return r0\n\
end\n\
op take 0\n\
await x 0 1\n\
return 0\n\
end\n\
op mn 0\n\
lock m\n\
lock n\n\
unlock n\n\
unlock m\n\
return 0\n\
end\n\
op nm 0\n\
lock n\n\
lock m\n\
unlock m\n\
unlock n\n\
return 0\n\
end\n\
op acquire 0\n\
lock m\n\
return 0\n\
end\n\
op flip 0\n\
pick r0 2\n\
return r0\n\
end\n\
op spin 0\n\
L0: jump L0\n\
end\n\
op past 0\n\
load r0 a 5\n\
return r0\n\
end\n\
op drop 0\n\
unlock m\n\
return 0\n\
end\n\
op hold 0\n\
store y 0 1\n\
store y 0 0\n\
return 0\n\
end\n\
op put 0\n\
load r0 y 0\n\
jz r0 L3\n\
return 0\n\
L3: store x 0 1\n\
return 0\n\
end\n\
op cinc 0\n\
L0: load r0 x 0\n\
add r1 r0 1\n\
cas r2 x 0 r0 r1\n\
jz r2 L0\n\
return r1\n\
end\n\
op maybe 0\n\
pick r0 2\n\
jz r0 L3\n\
await x 0 1\n\
L3: return 0\n\
end\n\
op wrap 1\n\
sub r0 r0 1\n\
return r0\n\
end\n\
op twice 0\n\
lock m\n\
lock m\n\
return 0\n\
end\n\
";

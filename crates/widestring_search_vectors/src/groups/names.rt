//! The names of the groups.

/// The groups, in the order in which they are printed.
pub static GROUPS: [&str; 24] = [
    "searches16",
    "searches32",
    "case16",
    "case32",
    "replaced16",
    "replaced32",
    "splits16",
    "splits32",
    "nocase16",
    "nocase32",
    "sets16",
    "sets32",
    "words16",
    "words32",
    "trims16",
    "trims32",
    "terminated16",
    "terminated32",
    "backs16",
    "backs32",
    "matches16",
    "matches32",
    "ends16",
    "ends32",
];

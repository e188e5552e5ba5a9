//! Reads Windows resources: `.res` files of 32-bit resource compilers and the resource section of PE files, and in them the
//! texts of string tables, message tables, version information, menus and dialogs.
#![tactic(auto)]

mod cursor;
mod dialogs;
mod formats;
mod kinds;
mod languages;
mod menus;
mod messages;
mod numbers;
mod pe;
mod res;
mod strings;
mod texts;
mod version;

pub use formats::{Format, format_of};
pub use kinds::{KindCount, count_kinds, kind_name};
pub use languages::language_name;
pub use numbers::{part_of, size_at, unit_at};
pub use pe::{Executable, Leaf, Leaves, PeDamage, open_executable};
pub use res::{Damage, Part, Parts, Resource};
pub use texts::{Found, Name, Text, TextDamage, TextForm, TextKind, kind_named, read_texts};

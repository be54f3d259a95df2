//! Code: instructions, functions and modules, and the terms that spell them.
#![tactic(auto)]

mod builtin;
mod functions;
mod instr;
mod laws;
mod meaning;
mod module;
mod operand;
mod operands;
mod reading;
mod rows;
mod shapes;
mod spellings;
mod syntax;
mod test;
mod weight;
mod words;
mod writing;

pub use builtin::{BUILTINS, Builtin, Row, SERVICES, Service, builtin_of, service_of};
pub use functions::Functions;
pub use instr::{Instr, Instrs};
pub use laws::{instructions_read_back, relabelling_keeps_the_effect};
pub use meaning::Meaning;
pub use module::{Export, Exports, Function, Module, Standalone};
pub use operand::{Cases, Gets, Puts, Reg, Regs, Sizes, Source, Sources};
pub use reading::{first_word, instr_of, tree_instr};
pub use syntax::{far_callee, is_any_label, is_listed, labels, near_callee};
pub use test::{Comparison, Test, TypeTest};
pub use words::{Spelled, TestName, Word};
pub use writing::term_of;

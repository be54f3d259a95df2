//! A plain session, which the tests compare with the program.
ghost use Rattle.std.specs.Prelude.{◌≡◌, ◌++◌, IfOk, OnOk};
ghost use Rattle.kh_text_defs.specs.Shown.{shown_line};
ghost use Rattle.kh_store.specs.Machine.{reply_to, after};
ghost use Rattle.khepri.specs.Plain.{TextAndStatus};

use crate::line::{Line, read_line};
use kh_print::print_line;
use kh_read::Form;
use kh_store::{Applied, Tree};
use kh_term::NoMemory;
use std::alloc::Global;

/// The whole text that a tree without a log gives for a script, and the status that says how the script ends.
/// The script is in memory as a whole, and no longer than is read.
pub fn plain_session(alloc: Global, script: &[u8]) -> Result<(Vec<u8>, u8), NoMemory>
    ensures { IfOk result (λ x. TextAndStatus script.now x.0.items x.1) }
{
    let mut tree = Tree::new(alloc)?;
    let mut text = Vec::new(alloc);
    let mut at = 0;
    'lines: loop {
        match read_line(alloc, script, at, true)? {
            Line::Form(form, next) => {
                add_reply(alloc, &mut text, &mut tree, form)?;
                at = next;
            }
            Line::End => return Ok((text, 0)),
            Line::Fault => return Ok((text, 2)),
            Line::Unfinished => return Ok((text, 2)),
        }
    }
}

// Executes a form, and adds its reply to the text.
fn add_reply(alloc: Global, text: &mut Vec<u8>, tree: &mut Tree, form: Form) -> Result<(), NoMemory>
    ensures text { OnOk result (text.new.items ≡ text.old.items ++ shown_line
        (reply_to form tree.old)) }
    ensures tree { OnOk result (tree.new ≡ after form tree.old) }
{
    let applied = tree.apply(alloc, form)?;
    let Applied { reply, tree: next } = applied;
    let line = print_line(alloc, &reply)?;
    text.extend_from_slice(&line)?;
    let Some(next) = next else {
        return Ok(());
    };
    *tree = next;
    Ok(())
}

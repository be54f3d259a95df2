//! How large the literals of functions are. Each call adds to a sum, which stops at 2^64 - 1.
#![tactic(auto, using(crate::proofs::Sums::counts))]

ghost use Rattle.std.specs.Prelude.{◌≡◌, ◌+◌, ◌∷◌, [], map};
ghost use Rattle.std.specs.List.{flat_map};
ghost use Rattle.kh_instr.specs.Syntax.{literal_in, literals_in, test_literals, literals};
ghost use Rattle.kh_instr.specs.Written.{all_literals};
ghost use Rattle.kh_code.specs.Capped.{capped, counted, all_counted};

use kh_instr::{Function, Instr, Source, Test};
use kh_term::{MOST_SIZE, Term, is_large, size};

// The size of a literal, or one more than any literal of a listing has.
fn counted(term: &Term) -> u64
    ensures { result ≡ counted term.now }
{
    if is_large(term) {
        return MOST_SIZE + 1;
    }
    size(term)
}

fn with_source(sum: u64, source: &Source) -> u64
    ensures { result ≡ capped (sum + all_counted (literal_in source.now)) }
{
    match source {
        Source::Literal(term) => sum.saturating_add(counted(term)),
        _ => sum,
    }
}

fn with_sources(sum: u64, sources: &[Source]) -> u64
    ensures { result ≡ capped (sum + all_counted (literals_in sources.now)) }
{
    let mut all = sum;
    for source in sources {
        all = with_source(all, source);
    }
    all
}

fn with_two(sum: u64, first: &Source, second: &Source) -> u64
    ensures { result ≡ capped (sum + all_counted (literals_in (first.now ∷ second.now ∷ []))) }
{
    with_source(with_source(sum, first), second)
}

fn with_pairs(sum: u64, pairs: &[(Source, Source)]) -> u64
    ensures { result ≡ capped (sum
        + all_counted (flat_map (λ p. literals_in (p.0 ∷ p.1 ∷ [])) pairs.now)) }
{
    let mut all = sum;
    for pair in pairs {
        all = with_two(all, &pair.0, &pair.1);
    }
    all
}

// Of sources beside something else.
fn with_firsts<B>(sum: u64, pairs: &[(Source, B)]) -> u64
    ensures { result ≡ capped (sum + all_counted (flat_map (λ p. literal_in p.0) pairs.now)) }
{
    let mut all = sum;
    for pair in pairs {
        all = with_source(all, &pair.0);
    }
    all
}

fn with_test(sum: u64, test: &Test) -> u64
    ensures { result ≡ capped (sum + all_counted (test_literals test.now)) }
{
    match test {
        Test::Type(_, source) | Test::Arity(source, _) => with_source(sum, source),
        Test::Function2(first, second)
        | Test::TaggedTuple(first, _, second)
        | Test::Compare(_, first, second) => with_two(sum, first, second),
        Test::HasMapFields(source, keys) => {
            with_sources(with_source(sum, source), keys.as_slice())
        }
    }
}

fn with_instr(sum: u64, instr: &Instr) -> u64
    ensures { result ≡ capped (sum + all_counted (literals instr.now)) }
{
    match instr {
        Instr::Move(source, _)
        | Instr::CallFun2(_, source)
        | Instr::SelectTupleArity(source, _, _)
        | Instr::GetList(source, _, _)
        | Instr::GetHd(source, _)
        | Instr::GetTl(source, _)
        | Instr::GetTupleElement(source, _, _)
        | Instr::Badmatch(source)
        | Instr::CaseEnd(source)
        | Instr::TryCaseEnd(source) => with_source(sum, source),
        Instr::PutList(first, second, _) | Instr::BifRaise(first, second, _) => {
            with_two(sum, first, second)
        }
        Instr::PutTuple2(_, sources)
        | Instr::MakeFun3(_, _, sources)
        | Instr::Bif(_, _, sources, _)
        | Instr::GcBif(_, _, _, sources, _) => with_sources(sum, sources.as_slice()),
        Instr::Test(_, test) => with_test(sum, test),
        Instr::SelectVal(source, _, cases) => {
            with_firsts(with_source(sum, source), cases.as_slice())
        }
        Instr::GetMapElements(_, source, keys) => {
            with_firsts(with_source(sum, source), keys.as_slice())
        }
        Instr::PutMapAssoc(_, source, _, _, pairs) | Instr::PutMapExact(_, source, _, _, pairs) => {
            with_pairs(with_source(sum, source), pairs.as_slice())
        }
        _ => sum,
    }
}

fn with_code(sum: u64, code: &[Instr]) -> u64
    ensures { result ≡ capped (sum + all_counted (flat_map literals code.now)) }
{
    let mut all = sum;
    for instr in code {
        all = with_instr(all, instr);
    }
    all
}

/// The sizes of the literals of functions together.
pub fn literals(functions: &[Function]) -> u64
    ensures { result ≡ capped (all_counted (all_literals functions.now)) }
{
    let mut all = 0;
    for function in functions {
        all = with_code(all, function.code.as_slice());
    }
    all
}

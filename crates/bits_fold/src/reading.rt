// A table through a block, and what is counted on the way, where nothing is limited: bits, draws or turns of loops.

ghost use Rattle.std.specs.Prelude.{◌≡◌, ◌≤◌, ◌<◌, length, None, IfOk, IfErr, OnOk};
ghost use Rattle.std.specs.List.{sum};
ghost use Rattle.numbers.specs.Fraction.{IsEqual};
ghost use Rattle.gcl_core.specs.meaning.Arms.{parts_of};
ghost use Rattle.gcl_core.specs.meaning.Bounds.{StatementIsWeighed, BlockIsWeighed, ArmsAreWeighed, StatementBelow, BlockBelow, ArmsBelow, ExpressionBelow, AreParts};
ghost use Rattle.gcl_core.specs.meaning.Syntax.{Choose, Uniform};
ghost use Rattle.gcl_core.specs.meaning.Views.{source_of, expression_of, statement_of, statements_of, list_of_arms};
ghost use Rattle.gcl_core.specs.meaning.Value.{value_of};
ghost use Rattle.bits_law.specs.Forever.{LoopForever, StatementEndless, BlockEndless, ArmsEndless};
ghost use Rattle.bits_law.specs.Reading.{AreSilent, LoopReads, TurnCosts, StatementCosts, BlockCosts, ArmsCost};
ghost use Rattle.exact_fold.specs.inner.Turning.{keys_in};
ghost use Rattle.bits_fold.specs.inner.Forever.{StopsFrom, RoundStops, Rounds, LoopStops};
ghost use Rattle.bits_fold.specs.Counted.{price_of};
ghost use Rattle.bits_fold.specs.inner.Reading.{ReadsFrom, CostsInRound};
ghost use Rattle.bits_fold.specs.inner.Turning.{IsSilent, VisitsFrom, MayBegin};

use crate::counted::Counted;
use crate::draws::{cost_of_arms, cost_of_choice, cost_of_uniform, weight_of};
use crate::error::BitsError;
use crate::finding::{
    Led, begun_anew, begun_with_more, chain, first_of, one, part_of, rest_of, silent_states,
    start_of,
};
use crate::reached::{Reached, joined, silently, twin, with_more};
use crate::stop::Stop;
use exact_fold::finding::{Seen, copied};
use exact_fold::turning::{above, all_stand, alone, leaving, passes, same};
use gcl_core::{Arms, Block, Checked, Expr, Stmt};
use mass_fold::choosing::{sides, total, weighed};
use mass_fold::{
    Attempts, Ended, Fold, Gone, MOST_STATES, State, Table, assign, end_all, merge, split,
};
use numbers::Frac;
use std::alloc::Global;

// The visits of a loop, the entries with which it is left, and the bits that its body reads from the visits.
#[derive(Drop)]
struct Turn {
    visits: Table,
    exits: Table,
    bits: Frac,
}

// A fold in which draws take as many attempts as it takes.
fn unlimited(alloc: Global) -> Fold
    ensures { result.attempts.most ≡ None }
{
    Fold {
        alloc,
        turns: 0,
        attempts: Attempts { most: None },
    }
}

// The table after a block, and the bits that it reads.
#[cycle(reading)]
fn read_block(alloc: Global, what: Counted, b: &Block, table: Table) -> Result<Reached, Stop>
    requires below { BlockBelow table.vars (statements_of b.now) }
    requires weights { BlockIsWeighed (statements_of b.now) }
    ensures ok { IfOk result (λ r. ReadsFrom (BlockCosts (price_of what) (statements_of b.now))
        table.states.entries r.table.states.entries r.bits) }
    ensures stops { IfErr result (StopsFrom (BlockEndless (price_of what) (statements_of b.now)) table.states.entries) }
    ensures vars { IfOk result (λ r. r.table.vars ≡ table.vars) }
{
    let mut now = silently(table);
    for s in &b.stmts {
        let next = read_stmt(alloc, what, s, now.table)?;
        now = with_more(next, &now.bits)?;
    }
    Ok(now)
}

#[cycle(reading)]
#[tactic(auto, using(gcl_core::proofs::ViewLemmas::views))]
fn read_stmt(alloc: Global, what: Counted, s: &Stmt, table: Table) -> Result<Reached, Stop>
    requires below { StatementBelow table.vars (statement_of s.now) }
    requires weights { StatementIsWeighed (statement_of s.now) }
    ensures ok { IfOk result (λ r. ReadsFrom (StatementCosts (price_of what) (statement_of s.now))
        table.states.entries r.table.states.entries r.bits) }
    ensures stops { IfErr result (StopsFrom (StatementEndless (price_of what) (statement_of s.now)) table.states.entries) }
    ensures vars { IfOk result (λ r. r.table.vars ≡ table.vars) }
{
    let mut ended = Ended::none();
    match s {
        Stmt::Skip => Ok(silently(table)),
        Stmt::Set(x, e) => Ok(silently(assign(alloc, *x, e, table, &mut ended)?)),
        Stmt::Uniform(x, e) => Ok(read_uniform(alloc, what, *x, e, table)?),
        Stmt::Observe(e) => {
            let (first, second) = split(alloc, e, table, &mut ended)?;
            end_all(Gone::Failed, second, &mut ended)?;
            Ok(silently(first))
        }
        Stmt::If(e, a, c) => {
            let (first, second) = split(alloc, e, table, &mut ended)?;
            let left = read_block(alloc, what, a, first)?;
            let right = read_block(alloc, what, c, second)?;
            Ok(joined(left, right)?)
        }
        Stmt::While(e, body) => read_loop(alloc, what, body, e, table),
        Stmt::Choice(p, a, c) => {
            let bits = cost_of_choice(what, *p, &table).ok_or(BitsError::TooWide)?;
            let (first, second) = sides(alloc, *p, Attempts { most: None }, &table, &mut ended)?;
            let left = read_block(alloc, what, a, first)?;
            let right = read_block(alloc, what, c, second)?;
            Ok(with_more(joined(left, right)?, &bits)?)
        }
        Stmt::Choose(arms) => read_choose(alloc, what, arms, table),
    }
}

fn read_uniform(
    alloc: Global,
    what: Counted,
    x: u32,
    e: &Expr,
    table: Table,
) -> Result<Reached, BitsError>
    requires place { x < table.vars }
    requires reads { ExpressionBelow (expression_of e.now) table.vars }
    ensures ok { IfOk result (λ r. ReadsFrom (StatementCosts (price_of what) (Uniform x (expression_of e.now)))
        table.states.entries r.table.states.entries r.bits) }
    ensures vars { IfOk result (λ r. r.table.vars ≡ table.vars) }
{
    let mut ended = Ended::none();
    let _count = table.states.len();
    let bits = cost_of_uniform(what, e, &table).ok_or(BitsError::TooWide)?;
    let table = unlimited(alloc).draw(x, e, table, &mut ended)?;
    Ok(Reached { table, bits })
}

// The weight of one part of a draw with so many.
fn one_part(count: u64) -> Frac
    requires { 1 ≤ count }
    ensures above { 1 ≤ result.0 }
    ensures equal { IsEqual result (1, count) }
{
    Frac::of(1, u128::from(count))
}

#[cycle(reading)]
fn read_choose(alloc: Global, what: Counted, arms: &Arms, table: Table) -> Result<Reached, Stop>
    requires below { ArmsBelow table.vars (list_of_arms arms.now) }
    requires parts { AreParts (parts_of (list_of_arms arms.now)) }
    requires weights { ArmsAreWeighed (list_of_arms arms.now) }
    ensures ok { IfOk result (λ r. ReadsFrom (StatementCosts (price_of what) (Choose (list_of_arms arms.now)))
        table.states.entries r.table.states.entries r.bits) }
    ensures stops { IfErr result (StopsFrom (StatementEndless (price_of what) (Choose (list_of_arms arms.now))) table.states.entries) }
    ensures vars { IfOk result (λ r. r.table.vars ≡ table.vars) }
{
    let bits = cost_of_arms(what, arms, &table).ok_or(BitsError::TooWide)?;
    let part = one_part(total(arms));
    Ok(with_more(read_arms(alloc, what, arms, &part, &table)?, &bits)?)
}

// The arms of a choice among several, one after the other, each by its part.
#[cycle(reading)]
fn read_arms(
    alloc: Global,
    what: Counted,
    arms: &Arms,
    part: &Frac,
    table: &Table,
) -> Result<Reached, Stop>
    requires below { ArmsBelow table.now.vars (list_of_arms arms.now) }
    requires parts { AreParts (parts_of (list_of_arms arms.now)) }
    requires weights { ArmsAreWeighed (list_of_arms arms.now) }
    requires above { 1 ≤ part.now.0 }
    requires equal { IsEqual part.now (1, sum (parts_of (list_of_arms arms.now))) }
    ensures ok { IfOk result (λ r. ReadsFrom
        (ArmsCost (price_of what) (sum (parts_of (list_of_arms arms.now))) (list_of_arms arms.now))
        table.now.states.entries r.table.states.entries r.bits) }
    ensures stops { IfErr result (StopsFrom
        (ArmsEndless (price_of what) (sum (parts_of (list_of_arms arms.now))) (list_of_arms arms.now)) table.now.states.entries) }
    ensures vars { IfOk result (λ r. r.table.vars ≡ table.now.vars) }
{
    let mut out = silently(Table::new(alloc, table.vars));
    for (count, block) in &arms.arms {
        let side = weighed(alloc, part, *count, table)?;
        let next = read_block(alloc, what, block, side)?;
        out = joined(out, next)?;
    }
    Ok(out)
}

// One turn of a loop from a table: where turns are counted, each counts besides what the body does.
#[cycle(reading)]
fn read_turn(alloc: Global, what: Counted, body: &Block, table: Table) -> Result<Reached, Stop>
    requires below { BlockBelow table.vars (statements_of body.now) }
    requires weights { BlockIsWeighed (statements_of body.now) }
    ensures ok { IfOk result (λ r. ReadsFrom (TurnCosts (price_of what).turns (BlockCosts (price_of what) (statements_of body.now)))
        table.states.entries r.table.states.entries r.bits) }
    ensures stops { IfErr result (StopsFrom (BlockEndless (price_of what) (statements_of body.now)) table.states.entries) }
    ensures vars { IfOk result (λ r. r.table.vars ≡ table.vars) }
{
    match what {
        Counted::Turns => {
            let turns = weight_of(&table).ok_or(BitsError::TooWide)?;
            let next = read_block(alloc, what, body, table)?;
            Ok(with_more(next, &turns)?)
        }
        Counted::Bits => read_block(alloc, what, body, table),
        Counted::Draws => read_block(alloc, what, body, table),
    }
}

// A loop: its visits are found, and one turn of its body shows that they are right; the visits of the loop begun with them show
// that they are no more than what the loop comes to. Where it reads for ever, turns of its body show it.
#[cycle(reading)]
fn read_loop(
    alloc: Global,
    what: Counted,
    body: &Block,
    e: &Expr,
    table: Table,
) -> Result<Reached, Stop>
    requires reads { ExpressionBelow (expression_of e.now) table.vars }
    requires below { BlockBelow table.vars (statements_of body.now) }
    requires weights { BlockIsWeighed (statements_of body.now) }
    ensures ok { IfOk result (λ r. ReadsFrom
        (LoopReads (value_of (expression_of e.now)) (TurnCosts (price_of what).turns (BlockCosts (price_of what) (statements_of body.now))))
        table.states.entries r.table.states.entries r.bits) }
    ensures stops { IfErr result (StopsFrom
        (LoopForever (value_of (expression_of e.now)) (TurnCosts (price_of what).turns (BlockCosts (price_of what) (statements_of body.now))) (BlockEndless (price_of what) (statements_of body.now)))
        table.states.entries) }
    ensures vars { IfOk result (λ r. r.table.vars ≡ table.vars) }
{
    let start = start_of(alloc, e, &table)?;
    let Some(turns) = explored(alloc, what, body, e, &start)? else {
        let none = Table::new(alloc, table.vars);
        check_forever(alloc, what, body, e, &none, table)?;
        return Err(Stop::ReadsForever);
    };
    let silent = silent_states(alloc, &turns, table.vars)?;
    let seen = chain(alloc, &turns, &silent, &silent)?;
    let found = seen.found(alloc, &leaving(alloc, &silent, start)?)?;
    if found.closed.states.len() != 0 {
        let class = class_in(alloc, what, body, e, found.closed)?;
        check_forever(alloc, what, body, e, &class, table)?;
        return Err(Stop::ReadsForever);
    }
    check_silent(alloc, what, body, e, &silent)?;
    let again = begun_anew(alloc, &seen, &turns, &silent, &found.visits)?;
    let turned = turn_from(alloc, what, body, e, &silent, found.visits, table)?;
    check_visits(alloc, what, body, e, &silent, again, turned.visits)?;
    Ok(Reached {
        table: turned.exits,
        bits: turned.bits,
    })
}

// The loop begun with these visits, and maybe with more, has visits.
#[cycle(reading)]
fn check_visits(
    alloc: Global,
    what: Counted,
    body: &Block,
    e: &Expr,
    closed: &Table,
    again: Table,
    visits: Table,
) -> Result<(), BitsError>
    requires reads { ExpressionBelow (expression_of e.now) visits.vars }
    requires below { BlockBelow visits.vars (statements_of body.now) }
    requires weights { BlockIsWeighed (statements_of body.now) }
    requires vars { again.vars ≡ visits.vars }
    ensures { OnOk result (MayBegin (value_of (expression_of e.now)) (TurnCosts (price_of what).turns (BlockCosts (price_of what) (statements_of body.now)))
        closed.now.states.entries visits.states.entries) }
{
    let next = read_turn(alloc, what, body, copied(alloc, &again)?)?;
    let more = begun_with_more(alloc, e, closed, &again, &visits, next.table)?;
    if !above(&more) {
        return Err(BitsError::NotFound);
    }
    let mut all = visits;
    merge(&mut all, more)?;
    turn_from(alloc, what, body, e, closed, again, all)?;
    Ok(())
}

// One turn from what was found of the visits. What it leads back and what comes in are the visits again, but for what is silent.
#[cycle(reading)]
fn turn_from(
    alloc: Global,
    what: Counted,
    body: &Block,
    e: &Expr,
    closed: &Table,
    found: Table,
    table: Table,
) -> Result<Turn, BitsError>
    requires reads { ExpressionBelow (expression_of e.now) table.vars }
    requires below { BlockBelow table.vars (statements_of body.now) }
    requires weights { BlockIsWeighed (statements_of body.now) }
    requires vars { found.vars ≡ table.vars }
    ensures ok { IfOk result (λ t. VisitsFrom (value_of (expression_of e.now)) (TurnCosts (price_of what).turns (BlockCosts (price_of what) (statements_of body.now)))
        closed.now.states.entries table.states.entries t.visits.states.entries t.exits.states.entries t.bits) }
    ensures vars { IfOk result (λ t. t.exits.vars ≡ table.vars) }
    ensures visits { IfOk result (λ t. t.visits.vars ≡ table.vars) }
{
    let copy = copied(alloc, &found)?;
    if !above(&found) || !same(&found, &copy) {
        return Err(BitsError::NotFound);
    }
    let next = read_turn(alloc, what, body, found)?;
    let mut all = table;
    merge(&mut all, next.table)?;
    let visits = leaving(alloc, closed, all)?;
    let kept = copied(alloc, &visits)?;
    if !same(&kept, &visits) {
        return Err(BitsError::NotFound);
    }
    let mut ended = Ended::none();
    let (on, exits) = split(alloc, e, visits, &mut ended)?;
    if !same(&on, &copy) {
        return Err(BitsError::NotFound);
    }
    Ok(Turn {
        visits: kept,
        exits,
        bits: next.bits,
    })
}

// The loop reads for ever: turns from the table come to one from which its body does, or to all states of a class that is never
// left, which weigh as what one turn leads back to itself.
#[cycle(reading)]
fn check_forever(
    alloc: Global,
    what: Counted,
    body: &Block,
    e: &Expr,
    class: &Table,
    table: Table,
) -> Result<(), BitsError>
    requires reads { ExpressionBelow (expression_of e.now) table.vars }
    requires below { BlockBelow table.vars (statements_of body.now) }
    requires weights { BlockIsWeighed (statements_of body.now) }
    requires vars { class.now.vars ≡ table.vars }
    ensures { OnOk result (LoopStops (value_of (expression_of e.now)) (TurnCosts (price_of what).turns (BlockCosts (price_of what) (statements_of body.now)))
        (BlockEndless (price_of what) (statements_of body.now)) table.states.entries) }
{
    let mut all = twin(alloc, &table)?;
    let mut now = table;
    for _ in 0..MOST_STATES {
        if class.states.len() != 0 && all_stand(&all, class) {
            check_round(alloc, what, body, e, class, all)?;
            return Ok(());
        }
        let mut none = Ended::none();
        let (on, _) = split(alloc, e, now, &mut none)?;
        match read_turn(alloc, what, body, on) {
            Err(Stop::ReadsForever) => return Ok(()),
            Err(Stop::Refused(error)) => return Err(error),
            Ok(next) => {
                merge(&mut all, twin(alloc, &next.table)?)?;
                now = next.table;
            }
        }
    }
    Err(BitsError::NotFound)
}

// A part of all states goes round: one turn reads some bits and leads to it again.
#[cycle(reading)]
fn check_round(
    alloc: Global,
    what: Counted,
    body: &Block,
    e: &Expr,
    class: &Table,
    all: Table,
) -> Result<(), BitsError>
    requires reads { ExpressionBelow (expression_of e.now) all.vars }
    requires below { BlockBelow all.vars (statements_of body.now) }
    requires weights { BlockIsWeighed (statements_of body.now) }
    requires vars { class.now.vars ≡ all.vars }
    ensures { OnOk result (Rounds (value_of (expression_of e.now)) (TurnCosts (price_of what).turns (BlockCosts (price_of what) (statements_of body.now))) all.states.entries) }
{
    let part = part_of(alloc, class, &all)?;
    let rest = rest_of(alloc, &all, &part)?;
    if !above(&part) || !above(&rest) {
        return Err(BitsError::NotFound);
    }
    let again = twin(alloc, &part)?;
    let mut sum = twin(alloc, &part)?;
    merge(&mut sum, rest)?;
    if !same(&sum, &all) {
        return Err(BitsError::NotFound);
    }
    let mut none = Ended::none();
    let (on, _) = split(alloc, e, part, &mut none)?;
    let next = read_turn(alloc, what, body, on)?;
    if !same(&next.table, &again) || next.bits.num() == 0 {
        return Err(BitsError::NotFound);
    }
    Ok(())
}

// One turn from a state; none where the body reads for ever.
#[cycle(reading)]
fn led(
    alloc: Global,
    what: Counted,
    body: &Block,
    e: &Expr,
    vars: u32,
    state: State,
) -> Result<Option<Led>, BitsError>
    requires reads { ExpressionBelow (expression_of e.now) vars }
    requires below { BlockBelow vars (statements_of body.now) }
    requires weights { BlockIsWeighed (statements_of body.now) }
{
    let reached = match read_turn(alloc, what, body, one(alloc, vars, &state)?) {
        Err(Stop::ReadsForever) => return Ok(None),
        Err(Stop::Refused(error)) => return Err(error),
        Ok(reached) => reached,
    };
    let mut none = Ended::none();
    let (next, _) = split(alloc, e, reached.table, &mut none)?;
    Ok(Some(Led {
        state,
        next,
        reads: reached.bits.num() != 0,
    }))
}

// One turn from each state that a loop comes to; none where from one of them the body reads for ever.
#[cycle(reading)]
fn explored(
    alloc: Global,
    what: Counted,
    body: &Block,
    e: &Expr,
    start: &Table,
) -> Result<Option<Vec<Led>>, BitsError>
    requires reads { ExpressionBelow (expression_of e.now) start.now.vars }
    requires below { BlockBelow start.now.vars (statements_of body.now) }
    requires weights { BlockIsWeighed (statements_of body.now) }
{
    let mut seen = Seen::none(alloc);
    seen.enlist(alloc, start)?;
    let mut turns = Vec::new(alloc);
    for i in 0..MOST_STATES {
        if i >= seen.states.len() {
            return Ok(Some(turns));
        }
        let state = seen.states[i].copy(alloc)?;
        let Some(turn) = led(alloc, what, body, e, start.vars, state)? else {
            return Ok(None);
        };
        seen.enlist(alloc, &turn.next)?;
        turns.push(turn)?;
    }
    if seen.states.len() > MOST_STATES {
        return Err(BitsError::TooManyStates);
    }
    Ok(Some(turns))
}

// Weights of a class of states, each of which leads to each, and none to others, by one factor: the visits between two of one of
// them. The states that are handed in are never left.
#[cycle(reading)]
fn class_in(
    alloc: Global,
    what: Counted,
    body: &Block,
    e: &Expr,
    closed: Table,
) -> Result<Table, BitsError>
    requires reads { ExpressionBelow (expression_of e.now) closed.vars }
    requires below { BlockBelow closed.vars (statements_of body.now) }
    requires weights { BlockIsWeighed (statements_of body.now) }
    ensures { IfOk result (λ t. t.vars ≡ closed.vars) }
{
    let none = Table::new(alloc, closed.vars);
    let mut within = closed;
    for _ in 0..MOST_STATES {
        let start = first_of(alloc, &within)?;
        let Some(turns) = explored(alloc, what, body, e, &start)? else {
            return Err(BitsError::NotFound);
        };
        let found = chain(alloc, &turns, &none, &start)?.found(alloc, &start)?;
        if found.closed.states.len() == 0 {
            return Ok(found.visits);
        }
        // From a state that is never come to again the class is looked for among those behind it.
        within = leaving(alloc, &start, found.closed)?;
    }
    Err(BitsError::NotFound)
}

// One turn of the body from a state of the silent ones reads nothing and stays in them.
#[cycle(reading)]
fn check_state(
    alloc: Global,
    what: Counted,
    body: &Block,
    e: &Expr,
    closed: &Table,
    s: &State,
) -> Result<(), BitsError>
    requires reads { ExpressionBelow (expression_of e.now) closed.now.vars }
    requires below { BlockBelow closed.now.vars (statements_of body.now) }
    requires weights { BlockIsWeighed (statements_of body.now) }
    requires sized { length s.now ≡ closed.now.vars }
    ensures { OnOk result (IsSilent (value_of (expression_of e.now)) (TurnCosts (price_of what).turns (BlockCosts (price_of what) (statements_of body.now)))
        (keys_in closed.now.states.entries) s.now) }
{
    if !passes(e, s) {
        return Err(BitsError::NotFound);
    }
    let one = alone(alloc, closed.vars, s)?;
    let next = read_turn(alloc, what, body, one)?;
    if next.bits.num() != 0 || !all_stand(closed, &next.table) {
        return Err(BitsError::NotFound);
    }
    Ok(())
}

// Nothing is read in these states any more, and none of them is ever left.
#[cycle(reading)]
fn check_silent(
    alloc: Global,
    what: Counted,
    body: &Block,
    e: &Expr,
    closed: &Table,
) -> Result<(), BitsError>
    requires reads { ExpressionBelow (expression_of e.now) closed.now.vars }
    requires below { BlockBelow closed.now.vars (statements_of body.now) }
    requires weights { BlockIsWeighed (statements_of body.now) }
    ensures { OnOk result (AreSilent (value_of (expression_of e.now)) (TurnCosts (price_of what).turns (BlockCosts (price_of what) (statements_of body.now)))
        (keys_in closed.now.states.entries)) }
{
    for (s, _) in &closed.states {
        check_state(alloc, what, body, e, closed, s)?;
    }
    Ok(())
}

/// What a round of a program costs, by what is counted.
pub fn read_program(alloc: Global, what: Counted, p: &Checked) -> Result<Frac, Stop>
    ensures ok { IfOk result (CostsInRound (price_of what) (source_of p.now)) }
    ensures stops { IfErr result (RoundStops (price_of what) (source_of p.now)) }
{
    let program = p.program();
    let table = Table::start(alloc, program.names.count())?;
    let reached = read_block(alloc, what, &program.body, table)?;
    Ok(reached.bits)
}

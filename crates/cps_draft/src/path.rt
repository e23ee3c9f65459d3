//! The cheapest way to say a run of words as code and data.
use super::coding::Coding;
use super::cost::Costs;
use super::told::Told;
use std::alloc::{AllocError, Global};

/// The words from one index up to another, which have no gap among them.
#[derive(Clone, Copy)]
struct Run {
    first: usize,
    end: usize,
}

/// What a word is, as it matters for the next one.
#[derive(Clone, Copy, PartialEq, Eq)]
enum Kind {
    /// There is none.
    Nothing,
    Number,
    /// Code behind which execution goes on.
    Falling,
    /// Code behind which it doesn't.
    Stopping,
}

/// A last step to a place, and the bits of the cheapest way that ends with it.
#[derive(Clone, Copy)]
struct Way {
    bits: u32,
    /// The kind in front of it.
    before: Kind,
    /// How many words it has.
    size: usize,
}

/// The cheapest ways to a place, by the kind of the last step.
#[derive(Clone, Copy)]
struct Ways {
    nothing: Option<Way>,
    number: Option<Way>,
    falling: Option<Way>,
    stopping: Option<Way>,
}

/// A step over one or two words.
#[derive(Clone, Copy)]
struct Step {
    kind: Kind,
    bits: u32,
    size: usize,
}

/// No way.
const NO_WAYS: Ways = Ways {
    nothing: None,
    number: None,
    falling: None,
    stopping: None,
};

/// The way to the first place.
const START: Ways = Ways {
    nothing: Some(Way {
        bits: 0,
        before: Kind::Nothing,
        size: 0,
    }),
    number: None,
    falling: None,
    stopping: None,
};

impl Ways {
    fn get(&self, kind: Kind) -> Option<Way> {
        match kind {
            Kind::Nothing => self.nothing,
            Kind::Number => self.number,
            Kind::Falling => self.falling,
            Kind::Stopping => self.stopping,
        }
    }

    /// The cheapest way to the step's end, behind these ways.
    fn best_before(&self, step: &Step) -> Option<Way> {
        let best = step.behind(Kind::Nothing, self.nothing, None);
        let best = step.behind(Kind::Number, self.number, best);
        let best = step.behind(Kind::Falling, self.falling, best);
        step.behind(Kind::Stopping, self.stopping, best)
    }

    /// These ways, and a step behind others.
    fn with(self, before: &Ways, step: &Step) -> Ways {
        let way = cheaper(self.get(step.kind), before.best_before(step));
        match step.kind {
            Kind::Nothing => self,
            Kind::Number => Ways {
                number: way,
                ..self
            },
            Kind::Falling => Ways {
                falling: way,
                ..self
            },
            Kind::Stopping => Ways {
                stopping: way,
                ..self
            },
        }
    }

    /// The kind with which the cheapest way ends, at the end of a run. It should not be fallen out of.
    fn last_kind(&self) -> Kind {
        let mut best = None;
        let mut last = Kind::Nothing;
        for kind in [Kind::Number, Kind::Falling, Kind::Stopping] {
            let Some(way) = self.get(kind) else {
                continue;
            };
            let extra = if kind == Kind::Falling { 10 } else { 0 };
            let bits = way.bits.saturating_add(extra);
            if best.is_none_or(|least| bits < least) {
                best = Some(bits);
                last = kind;
            }
        }
        last
    }
}

impl Step {
    /// The cheaper one of the best way to the step's end so far, and of the way that ends with the step behind one more kind.
    fn behind(&self, kind: Kind, before: Option<Way>, best: Option<Way>) -> Option<Way> {
        let Some(before) = before else {
            return best;
        };
        let way = Way {
            bits: before
                .bits
                .saturating_add(self.bits)
                .saturating_add(change_cost(kind, self.kind)),
            before: kind,
            size: self.size,
        };
        cheaper(best, Some(way))
    }
}

/// The cheaper one of two ways, the first if they cost the same.
fn cheaper(first: Option<Way>, second: Option<Way>) -> Option<Way> {
    match (first, second) {
        (Some(one), Some(other)) if other.bits < one.bits => Some(other),
        (None, other) => other,
        (one, _) => one,
    }
}

/// What it costs to change from one kind to another.
fn change_cost(before: Kind, kind: Kind) -> u32 {
    match (before, kind == Kind::Number) {
        (Kind::Nothing, true) => 3,
        (Kind::Nothing, false) => 2,
        (Kind::Number, true) => 0,
        (Kind::Number, false) => 10,
        (Kind::Falling, true) => 16,
        (Kind::Falling, false) => 0,
        (Kind::Stopping, true) => 5,
        (Kind::Stopping, false) => 1,
    }
}

/// Finds what is code, run after run.
pub fn find_code(
    alloc: Global,
    costs: &Costs<'_>,
    told: &Told,
    coding: &mut Coding,
) -> Result<(), AllocError> {
    let mut places = Vec::new(alloc);
    let mut first = 0;
    for index in 0..costs.image.words.len() {
        if costs.image.after(index).is_none() {
            let end = index.saturating_add(1);
            find_places(costs, told, Run { first, end }, &mut places)?;
            put_code(&places, first, coding);
            first = end;
        }
    }
    Ok(())
}

/// The ways to each place of a run; the first place is in front of its first word.
fn find_places(
    costs: &Costs<'_>,
    told: &Told,
    run: Run,
    places: &mut Vec<Ways>,
) -> Result<(), AllocError> {
    places.clear();
    places.push(START)?;
    for _ in run.first..run.end {
        places.push(NO_WAYS)?;
    }
    for index in run.first..run.end {
        let place = index.saturating_sub(run.first);
        let before = places.get(place).copied().unwrap_or(NO_WAYS);
        let number = number_step(costs, index);
        let code = code_step(costs, told, index);
        if let Some(step) = code {
            put_step(places, place, &before, &step);
        }
        if code.is_none() || !told.is_code(index) {
            put_step(places, place, &before, &number);
        }
    }
    Ok(())
}

/// One more step from a place on.
fn put_step(places: &mut Vec<Ways>, place: usize, before: &Ways, step: &Step) {
    if let Some(there) = places.get_mut(place.saturating_add(step.size)) {
        *there = there.with(before, step);
    }
}

fn number_step(costs: &Costs<'_>, index: usize) -> Step {
    Step {
        kind: Kind::Number,
        bits: costs.data_cost(index),
        size: 1,
    }
}

fn code_step(costs: &Costs<'_>, told: &Told, index: usize) -> Option<Step> {
    if told.is_data(index) {
        return None;
    }
    let cost = costs.code_cost(index, told.second(&costs.image, index))?;
    let kind = if cost.goes_on {
        Kind::Falling
    } else {
        Kind::Stopping
    };
    Some(Step {
        kind,
        bits: cost.bits,
        size: cost.size,
    })
}

/// Goes back over the cheapest way, and notes its code.
fn put_code(places: &[Ways], first: usize, coding: &mut Coding) {
    let mut place = places.len().saturating_sub(1);
    let mut kind = places.last().map_or(Kind::Nothing, |ways| ways.last_kind());
    for _ in 0..places.len() {
        let Some(way) = places.get(place).and_then(|ways| ways.get(kind)) else {
            break;
        };
        place = place.saturating_sub(way.size);
        if matches!(kind, Kind::Falling | Kind::Stopping) {
            coding.put(first.saturating_add(place), way.size);
        }
        kind = way.before;
    }
}

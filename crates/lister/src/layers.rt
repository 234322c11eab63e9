use crate::by_planner::{PlannerSolve, WORK_ROWS};
use crate::second::port::Figures;
use crate::second::rules::Rule;
use crate::second::solve::{Asked, Setting};
use crate::second::told::{Refusal, refused};
use crate::second::total::MeasureKind;
use limits::{Burst, Floor, Jitter, Layer, Open, Port, Reserve, Share};
use plan::Plan;
use planner::{Row, work_row};
use std::alloc::{AllocError, Global};
use std::array;

/// How a limit is layered, from the top.
#[derive(Clone, Copy, Debug, PartialEq, Eq)]
pub(crate) enum Layers {
    /// The limit of a port.
    Port,
    Open,
    Floor,
    Share,
    Jitter,
    JitterFloorShareOpen,
    ShareJitterOpen,
    FloorFloorJitter,
    /// A share over a floor as the rule of a layer, and the jitter below.
    ShareOnFloorJitter,
}

/// What a plan is solved under: the limit with its figures, and the measure.
#[derive(Clone, Copy, Debug)]
pub(crate) struct Conditions {
    pub(crate) layers: Layers,
    pub(crate) figures: Figures,
    pub(crate) measure: MeasureKind,
}

/// All ways to layer a limit; most limits are those of a port.
pub(crate) const LAYERS: [Layers; 12] = [
    Layers::Port,
    Layers::Port,
    Layers::Port,
    Layers::Port,
    Layers::Open,
    Layers::Floor,
    Layers::Share,
    Layers::Jitter,
    Layers::JitterFloorShareOpen,
    Layers::ShareJitterOpen,
    Layers::FloorFloorJitter,
    Layers::ShareOnFloorJitter,
];

/// The second floor, where there are two.
const LOWER_FLOOR: u32 = 2;

/// The rules of the limit that is layered so.
pub(crate) fn rules(
    alloc: Global,
    layers: Layers,
    figures: Figures,
) -> Result<Vec<Rule>, AllocError> {
    let floor = Rule::Floor(figures.floor);
    let share = Rule::Share(figures.share);
    let jitter = Rule::Jitter(figures.rate);
    match layers {
        Layers::Open => Ok(Vec::new(alloc)),
        Layers::Floor => [floor].to_vec(alloc),
        Layers::Share => [share].to_vec(alloc),
        Layers::Jitter => [jitter].to_vec(alloc),
        Layers::ShareJitterOpen => [share, jitter].to_vec(alloc),
        Layers::FloorFloorJitter => [floor, Rule::Floor(LOWER_FLOOR), jitter].to_vec(alloc),
        Layers::Port | Layers::JitterFloorShareOpen | Layers::ShareOnFloorJitter => {
            [floor, share, jitter].to_vec(alloc)
        }
    }
}

/// What a solve tells under a limit. The work tables are made here, where the type of the limit is known.
macro_rules! under {
    ($call:expr, $limit:expr, $answer:expr) => {{
        let limit = $limit;
        let mut by_reserve: [_; WORK_ROWS] = array::from_fn(|_| work_row(&limit, &Reserve));
        let mut by_burst: [_; WORK_ROWS] = array::from_fn(|_| work_row(&limit, &Burst));
        $call.under(&limit, &mut by_reserve, &mut by_burst, $answer)
    }};
}

/// What the planner tells of a solve under these conditions: under the limit of a port, first whether the figures make one.
pub(crate) fn told_by_planner(
    plan: &Plan,
    conditions: Conditions,
    asked: Asked,
    answer: &mut [Row],
) -> Result<Setting, Refusal> {
    let Conditions {
        layers,
        figures,
        measure,
    } = conditions;
    let call = PlannerSolve {
        plan,
        measure,
        asked,
    };
    match layers {
        Layers::Port => match Port::new(figures.rate, figures.share, figures.floor) {
            Ok(port) => under!(call, port.limit(), answer),
            Err(fault) => Err(refused(fault.number(), fault.detail())),
        },
        Layers::Open => under!(call, Open, answer),
        Layers::Floor | Layers::Share | Layers::Jitter => told_alone(call, layers, figures, answer),
        _ => told_under_layers(call, layers, figures, answer),
    }
}

/// What the planner tells under a rule alone.
fn told_alone(
    call: PlannerSolve<'_>,
    layers: Layers,
    figures: Figures,
    answer: &mut [Row],
) -> Result<Setting, Refusal> {
    let Figures { rate, share, floor } = figures;
    match layers {
        Layers::Floor => under!(call, Floor { gap: floor }, answer),
        Layers::Share => under!(call, Share { rate: share }, answer),
        _ => under!(call, Jitter { rate }, answer),
    }
}

/// What the planner tells under the limit that is layered so.
fn told_under_layers(
    call: PlannerSolve<'_>,
    layers: Layers,
    figures: Figures,
    answer: &mut [Row],
) -> Result<Setting, Refusal> {
    let Figures { rate, share, floor } = figures;
    let floor = Floor { gap: floor };
    let share = Share { rate: share };
    let jitter = Jitter { rate };
    let lower = Floor { gap: LOWER_FLOOR };
    match layers {
        Layers::JitterFloorShareOpen => {
            under!(call, over(jitter, over(floor, over(share, Open))), answer)
        }
        Layers::ShareJitterOpen => under!(call, over(share, over(jitter, Open)), answer),
        Layers::FloorFloorJitter => under!(call, over(floor, over(lower, jitter)), answer),
        _ => under!(call, over(over(share, floor), jitter), answer),
    }
}

/// A layer.
fn over<R, L>(rule: R, below: L) -> Layer<R, L> {
    Layer { rule, below }
}

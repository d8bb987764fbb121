// "Each component has its own fixed percent, step and floor": what a component lacks is 0.
ghost use Rattle.std.specs.Prelude.{◌≡◌};
ghost use Rattle.tariff.specs.Threshold.{threshold_of};

#[derive(Clone, Copy)]
pub struct Threshold {
    pub percent: u32,
    pub step: u32,
    pub floor: u32,
}

impl Threshold {
    pub const ENERGY: Threshold = Threshold {
        percent: 300,
        step: 10_000,
        floor: 2_500,
    };

    pub const MINIMUM_GENERATION: Threshold = Threshold::ENERGY;

    pub const RESERVE: Threshold = Threshold {
        percent: 300,
        step: 5_000,
        floor: 500,
    };

    pub const START_UP_COST: Threshold = Threshold {
        percent: 200,
        step: 0,
        floor: 0,
    };

    pub const START_UP_TIME: Threshold = Threshold {
        percent: 0,
        step: 180,
        floor: 0,
    };

    pub const MINIMUM_RUN_TIME: Threshold = Threshold::START_UP_TIME;

    pub const MINIMUM_DOWN_TIME: Threshold = Threshold::START_UP_TIME;

    pub const MINIMUM_PARAMETER: Threshold = Threshold {
        percent: 100,
        step: 0,
        floor: 0,
    };

    pub const MAXIMUM_PARAMETER: Threshold = Threshold {
        percent: 50,
        step: 0,
        floor: 0,
    };

    // The threshold of a component's number; no test reads it past 8. A number, since threshold_of speaks of those past 8 too.
    pub fn of(component: u8) -> Threshold
        ensures { result ≡ threshold_of component }
    {
        match component {
            0 => Threshold::ENERGY,
            1 => Threshold::MINIMUM_GENERATION,
            2 => Threshold::RESERVE,
            3 => Threshold::START_UP_COST,
            4 => Threshold::START_UP_TIME,
            5 => Threshold::MINIMUM_RUN_TIME,
            6 => Threshold::MINIMUM_DOWN_TIME,
            7 => Threshold::MINIMUM_PARAMETER,
            _ => Threshold::MAXIMUM_PARAMETER,
        }
    }
}

//! The engine, on a bench whose brake holds it at 3,000 rpm, so that each stroke takes ten milliseconds. It knows
//! nothing of XCP, and its controller doesn't know these numbers: the map is what somebody found out about them.

#[derive(Drop)]
pub struct Engine {
    /// How far it is open, per cent.
    pub throttle: f64,
    /// In the manifold, kPa.
    pub pressure: f64,
    /// What the probe says: 1 where the fuel fits the air, above 1 with too little fuel.
    pub lambda: f64,
}

impl Engine {
    pub fn new() -> Engine {
        Engine {
            throttle: 0.0,
            pressure: 40.0,
            lambda: 1.0,
        }
    }

    /// Ten milliseconds: the throttle moves by so much at most, air comes through it into the manifold, and a cylinder
    /// draws some of it.
    pub fn open(&mut self, wanted: f64, most: f64) {
        self.throttle += (wanted - self.throttle).max(-most).min(most);
        let open = self.throttle / 100.0;
        let over = ((self.pressure - 53.0) / 47.0).max(0.0).min(1.0);
        let through = 1500.0 * open * open.sqrt() * (1.0 - over * over).sqrt();
        self.pressure += (through - self.drawn()) / 34.8;
    }

    /// A stroke: what is drawn burns with the fuel of so many microseconds of injection, of which an injector takes
    /// 800 to open. The probe follows slowly.
    pub fn burn(&mut self, injection: f64) {
        let fuel = (injection - 800.0).max(50.0) * 0.0025;
        self.lambda += (self.drawn() / (14.7 * fuel) - self.lambda) * 0.125;
    }

    // Air, mg.
    fn drawn(&self) -> f64 {
        4.983 * self.pressure
    }
}

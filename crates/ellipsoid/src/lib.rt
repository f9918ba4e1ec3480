// The ellipsoid: its record of five numbers, the five of document 01's table, the radii of
// curvature and the geocentric latitude.
//
// By document 01's formulas, since the Rust files lean on these and do not contain them; the order
// in which each is rounded stands in specs/Figure.antt. The radii and the geocentric latitude take
// the sine (and cosine) of the latitude, not the latitude: a step that has the pair already does
// not work it out again, and the numbers are those that the latitude itself would give. Used by
// geocart, cart, Molodensky, permtide and deformation.
#![tactic(auto)]

ghost use Rattle.std.specs.Prelude.{◌≡◌, ℕ};
ghost use Rattle.blocks.specs.Each.{at, Each};
ghost use Rattle.ellipsoid.specs.Figure.{ellipsoid_of, named_of, exists_of, w_of, prime_vertical_of, radii_with, radii_of, geocentric_of};

use blocks::WIDTH;

#[derive(Clone, Copy)]
pub struct Ellipsoid {
    pub a: f64,
    pub f: f64,
    pub es: f64,
    pub b: f64,
    pub eps: f64,
}

// Both radii of curvature at one latitude.
#[derive(Clone, Copy)]
pub struct Radii {
    pub n: f64,
    pub m: f64,
}

impl Ellipsoid {
    // The ellipsoid of a semimajor axis and of one over the flattening.
    pub fn new(a: f64, rf: f64) -> Self
        ensures { result ≡ ellipsoid_of a rf }
    {
        let f = 1.0 / rf;
        let es = f * (2.0 - f);
        Ellipsoid {
            a,
            f,
            es,
            b: a * (1.0 - f),
            eps: es / (1.0 - es),
        }
    }

    // The ellipsoid of the table with this number; of any other number a record of NaNs. No enum of
    // five names stands between: a sheet carries the number, and only here does it get a meaning.
    pub fn named(number: u32) -> Self
        ensures { result ≡ named_of number }
    {
        match number {
            1 => Ellipsoid::new(6378137.0, 298.257222101),
            2 => Ellipsoid::new(6378137.0, 298.257223563),
            3 => Ellipsoid::new(6378388.0, 297.0),
            4 => Ellipsoid::new(6377397.155, 299.1528128),
            5 => Ellipsoid::new(6378245.0, 298.3),
            _ => Ellipsoid::new(0.0 / 0.0, 0.0 / 0.0),
        }
    }

    // Whether the table has this number.
    pub fn exists(number: u32) -> bool
        ensures { result ≡ exists_of number }
    {
        matches!(number, 1..=5)
    }

    // w, from the sine of the latitude.
    pub fn w(self, sinphi: f64) -> f64
        ensures { result ≡ w_of self sinphi }
    {
        1.0 - floats::square(sinphi) * self.es
    }

    // N, from the sine of the latitude.
    pub fn prime_vertical_radius_of_curvature(self, sinphi: f64) -> f64
        ensures { result ≡ prime_vertical_of self sinphi }
    {
        self.a / root::sqrt(self.w(sinphi))
    }

    // N and M, from w and its root, for those who have both at hand.
    pub fn radii_with(self, w: f64, q: f64) -> Radii
        ensures { result ≡ radii_with self w q }
    {
        Radii {
            n: self.a / q,
            m: self.a * (1.0 - self.es) / (w * q),
        }
    }

    // N and M, from the sine of the latitude, with one square root for both.
    pub fn radii_of_curvature(self, sinphi: f64) -> Radii
        ensures { result ≡ radii_of self sinphi }
    {
        let w = self.w(sinphi);
        self.radii_with(w, root::sqrt(w))
    }

    // The geocentric latitude, from the sine and cosine of the geographic one.
    pub fn latitude_geographic_to_geocentric(self, sinphi: f64, cosphi: f64) -> f64
        ensures { result ≡ geocentric_of self sinphi cosphi }
    {
        arctan::atan2((1.0 - self.es) * sinphi, cosphi)
    }
}

// w of a block of sines.
pub fn w_block(ellps: Ellipsoid, sinphi: &[f64; WIDTH], w: &mut [f64; WIDTH])
    ensures { Each w.new (λ (j : ℕ). w_of ellps (at sinphi.now j)) }
{
    for i in 0..WIDTH {
        w[i] = ellps.w(sinphi[i]);
    }
}

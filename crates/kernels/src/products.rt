// The products of the three families.
ghost use Rattle.std.specs.Prelude.{◌≡◌, ◌*◌, length};
ghost use Rattle.schemes.specs.Schemes.{bcns};
ghost use Rattle.lists.specs.Ranges.{Below};
ghost use Rattle.polynomial.specs.Steps as polynomial;
ghost use Rattle.polynomial.specs.Product as polynomials;
ghost use Rattle.transform.specs.Transform.{transformed, inverted};
ghost use Rattle.transform.specs.Theorems.{multiplied};
ghost use Rattle.matrix.specs.Steps as matrix;
ghost use Rattle.matrix.specs.Matrix as matrices;

#[unsafe(no_mangle)]
pub extern "C" fn polynomial_mix(a: &[u32], s: &[i32], e: &[i32], out: &mut [u32])
    requires fit { polynomial.Fit bcns.q (length out.old) a.now s.now }
    requires e_len { length e.now ≡ length out.old }
    ensures { out.new ≡ polynomials.mixed bcns.q (length out.old) a.now s.now e.now }
{
    polynomial::mix(a, s, e, out);
}

#[unsafe(no_mangle)]
pub extern "C" fn polynomial_multiply(u: &[u32], s: &[i32], out: &mut [u32])
    requires { polynomial.Fit bcns.q (length out.old) u.now s.now }
    ensures { out.new ≡ polynomials.bare bcns.q (length out.old) u.now s.now }
{
    polynomial::multiply(u, s, out);
}

#[unsafe(no_mangle)]
pub extern "C" fn transform_forward(g: &mut [u32; 1024])
    requires { Below 12289 g.old × (length g.old ≡ 1024) }
    ensures { g.new ≡ transformed g.old }
{
    transform::forward(g);
}

#[unsafe(no_mangle)]
pub extern "C" fn transform_inverse(g: &mut [u32; 1024])
    requires { Below 12289 g.old × (length g.old ≡ 1024) }
    ensures { g.new ≡ inverted g.old }
{
    transform::inverse(g);
}

#[unsafe(no_mangle)]
pub extern "C" fn transform_product(a: &mut [u32; 1024], b: &mut [u32; 1024])
    requires { Below 12289 a.old × (length a.old ≡ 1024) × Below 12289 b.old × (length b.old ≡ 1024) }
    ensures { (a.new ≡ multiplied a.old b.old) × (b.new ≡ transformed b.old) }
{
    transform::product(a, b);
}

#[unsafe(no_mangle)]
pub extern "C" fn matrix_right(q: u32, n: usize, x: &[u32], s: &[i32], e: &[i32], out: &mut [u32])
    requires fit { matrix.Fit q n n x.now s.now × (length out.old ≡ 8 * n) }
    requires e_len { length e.now ≡ 8 * n }
    ensures { out.new ≡ matrices.right_mixed q n n 8 x.now s.now e.now }
{
    matrix::mix_right(q, n, x, s, e, out);
}

#[unsafe(no_mangle)]
pub extern "C" fn matrix_left(q: u32, n: usize, s: &[i32], y: &[u32], e: &[i32], out: &mut [u32])
    requires fit { matrix.Fit q n n y.now s.now × (length out.old ≡ 8 * n) }
    requires e_len { length e.now ≡ 8 * n }
    ensures { out.new ≡ matrices.left_mixed q n n 8 s.now y.now e.now }
{
    matrix::mix_left(q, n, s, y, e, out);
}

#[unsafe(no_mangle)]
pub extern "C" fn matrix_multiply(q: u32, n: usize, u: &[u32], s: &[i32], out: &mut [u32])
    requires { matrix.Fit q n 8 u.now s.now × (length out.old ≡ 64) }
    ensures { out.new ≡ matrices.bare q n 8 u.now s.now }
{
    matrix::multiply(q, n, u, s, out);
}

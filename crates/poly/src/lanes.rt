//! Products of polynomials whose coefficients are numbers of 16 bits, modulo 2^16: by halves, and at the end by rows. All room
//! is in arrays of fixed length: products are called from C, with no allocator.
ghost use Rattle.std.specs.Prelude.{◌≡◌, ℕ, ◌+◌, ◌*◌, ◌%◌, ◌<◌, ◌≤◌, length};
ghost use Rattle.poly.specs.Lanes.{conv, rows_at, Padded, Factors, Holds, Joined, Coefficients};
ghost use Rattle.poly.specs.Lists.{at};
ghost use Rattle.poly.specs.declared.lanes.TheConstants.{LONGEST, PRODUCT};

// The longest factor, widened: a multiple of 64 above 820, so that its halves' halves' halves are multiples of 8.
const LONGEST: usize = 832;

// A factor between eight zeros and at least as many.
const PADDED: usize = LONGEST + 16;

// A product.
pub(crate) const PRODUCT: usize = 2 * LONGEST;

// Room for the sums of halves, and for halves of these.
const WORK: usize = 4 * LONGEST;

// Factors of this length or less are multiplied by rows, which is quicker than by halves.
const SHORT: usize = 104;

// Eight products at place k, c times b, where b stands eight places later.
fn rows(c: &[u16; 8], b: &[u16], k: usize) -> u16
    requires { k + 8 < length b.now }
    ensures { result ≡ rows_at 8 (at c.now) (at b.now) k % 65536 }
{
    let mut sum = 0u16;
    // By index: over c zipped with b[k + 1..k + 9] read backwards the check finds no proof of a turn, and it is no quicker.
    for (j, x) in c.iter().enumerate() {
        sum = sum.wrapping_add(x.wrapping_mul(b[k + 8 - j]));
    }
    sum
}

// Puts f(k, x) in place of each x, where k is its place: modulo 2^16 a number e, where f can answer nothing else. Callers index
// at k the lists that they read: of what is written through `iter_mut().zip(..)` a proof knows only the length.
fn put_each<F: Fn(usize, u16) -> u16>(xs: &mut [u16], f: F)
    requires { (k x : ℕ) → k < length xs.old → F.pre f k x }
    ensures { (k e : ℕ) → k < length xs.new → ((y : ℕ) → F.post f k (at xs.old k) y → y % 65536 ≡ e % 65536) → at xs.new k % 65536 ≡ e % 65536 }
{
    for (k, x) in xs.iter_mut().enumerate() {
        *x = f(k, *x);
    }
}

// Adds eight rows of a product.
fn add_rows(c: &[u16; 8], b: &[u16], sums: &mut [u16])
    requires { length sums.old + 8 ≤ length b.now }
    ensures { Holds (λ k. at sums.old k + rows_at 8 (at c.now) (at b.now) k) sums.new }
{
    put_each(sums, |k, x| x.wrapping_add(rows(c, b, k)));
}

// b behind eight zeros and before more of them.
fn padded(b: &[u16]) -> [u16; PADDED]
    requires { length b.now ≤ LONGEST }
    ensures { Padded b.now result }
{
    // Of fixed length, as all room here.
    let mut padded = [0; PADDED];
    padded[8..8 + b.len()].copy_from_slice(b);
    padded
}

// The product of a and b, eight rows at a time.
fn by_rows(a: &[u16], b: &[u16], p: &mut [u16])
    requires { Factors a.now b.now p.old }
    ensures { Holds (conv (at a.now) (at b.now)) p.new }
{
    let padded = padded(b);
    p.fill(0);
    let (chunks, _) = a.as_chunks::<8>();
    // By place: the windows of p overlap, and no iterator lends overlapping windows to write in.
    for (k, c) in chunks.iter().enumerate() {
        add_rows(c, &padded, &mut p[8 * k..8 * k + b.len() + 8]);
    }
}

// The sums of x and y, place by place.
fn put_sums(x: &[u16], y: &[u16], out: &mut [u16])
    requires x { length out.old ≡ length x.now }
    requires y { length out.old ≡ length y.now }
    ensures { Holds (λ k. at x.now k + at y.now k) out.new }
{
    put_each(out, |k, _| x[k].wrapping_add(y[k]));
}

// What is left of x once a and b are taken away.
fn less(x: u16, a: u16, b: u16) -> u16
    ensures { (result + a + b) % 65536 ≡ x % 65536 }
{
    x.wrapping_sub(a).wrapping_sub(b)
}

// Adds to the product of the lower and that of the upper halves, which p holds, the products of one with the other. The
// product of the sums of the halves has all four.
fn join(p: &mut [u16], middle: &mut [u16])
    requires { length p.old ≡ 2 * length middle.old }
    ensures { Joined p.old middle.old p.new }
{
    let n = middle.len();
    let (low, high) = p.split_at(n);
    put_each(middle, |k, x| less(x, low[k], high[k]));
    put_each(&mut p[n / 2..n / 2 + n], |k, x| x.wrapping_add(middle[k]));
}

// The product of a and b, by three products of halves where these are long enough.
fn multiply(a: &[u16], b: &[u16], p: &mut [u16], work: &mut [u16])
    requires factors { Factors a.now b.now p.old }
    requires room { 4 * length b.now ≤ length work.old }
    ensures { Holds (conv (at a.now) (at b.now)) p.new }
{
    let n = b.len();
    if n <= SHORT || n % 16 != 0 {
        by_rows(a, b, p);
        return;
    }
    let h = n / 2;
    let (a0, a1) = a.split_at(h);
    let (b0, b1) = b.split_at(h);
    let (sa, rest) = work.split_at_mut(h);
    let (sb, rest) = rest.split_at_mut(h);
    let (middle, rest) = rest.split_at_mut(n);
    put_sums(a0, a1, sa);
    put_sums(b0, b1, sb);
    let (low, high) = p.split_at_mut(n);
    multiply(a0, b0, low, rest);
    multiply(a1, b1, high, rest);
    multiply(sa, sb, middle, rest);
    join(p, middle);
}

// Writes the coefficients of the product of a and b. Both are widened with zeros, so that they halve well.
pub(crate) fn put_product<const N: usize>(a: &[u16; N], b: &[u16; N], p: &mut [u16])
    requires most { N < LONGEST }
    requires room { length p.old ≡ PRODUCT }
    ensures { Coefficients a.now b.now p.new }
{
    let n = N / 64 * 64 + 64;
    let a = padded(a);
    let b = padded(b);
    // Of fixed length, as all room here.
    let mut work = [0; WORK];
    multiply(&a[8..8 + n], &b[8..8 + n], &mut p[0..2 * n], &mut work);
}

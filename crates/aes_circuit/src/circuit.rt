// The S-boxes without tables: a boolean circuit on words, so that each bit position of eight planes is an S-box. It is that of Boyar and
// Peralta, with the names that they give its gates; x0 and s0 are the highest bits.
ghost use Rattle.std.specs.Prelude.{◌≡◌};
ghost use Rattle.aes_circuit.specs.SboxCircuit.{low, high, sums, norm, inverse, products, bottom, sboxes};

const ONES: u64 = 0xffff_ffff_ffff_ffff;

// The linear layer at the top: a change of basis to a tower of fields. The words that the products take, nine and nine, and four sums.
fn top(p: [u64; 8]) -> ([u64; 9], [u64; 9], [u64; 4])
    ensures low { result.0 ≡ low p }
    ensures high { result.1 ≡ high p }
    ensures sums { result.2 ≡ sums p }
{
    let [x7, x6, x5, x4, x3, x2, x1, x0] = p;
    let y14 = x3 ^ x5;
    let y13 = x0 ^ x6;
    let y9 = x0 ^ x3;
    let y8 = x0 ^ x5;
    let t0 = x1 ^ x2;
    let y1 = t0 ^ x7;
    let y4 = y1 ^ x3;
    let y12 = y13 ^ y14;
    let y2 = y1 ^ x0;
    let y5 = y1 ^ x6;
    let y3 = y5 ^ y8;
    let t1 = x4 ^ y12;
    let y15 = t1 ^ x5;
    let y20 = t1 ^ x1;
    let y6 = y15 ^ x7;
    let y10 = y15 ^ t0;
    let y11 = y20 ^ y9;
    let y7 = x7 ^ y11;
    let y17 = y10 ^ y11;
    let y19 = y10 ^ y8;
    let y16 = t0 ^ y11;
    let y21 = y13 ^ y16;
    let y18 = x0 ^ y16;
    (
        [y15, y6, x7, y16, y1, y7, y11, y17, y10],
        [y12, y3, y4, y13, y5, y2, y9, y14, y8],
        [y20, y19, y21, y18],
    )
}

// The element of GF(2^4) whose inverse gives the inverse in GF(2^8).
fn norm(low: [u64; 9], high: [u64; 9], sums: [u64; 4]) -> [u64; 4]
    ensures { result ≡ norm low high sums }
{
    let [y15, y6, x7, y16, y1, y7, y11, y17, y10] = low;
    let [y12, y3, y4, y13, y5, y2, y9, y14, y8] = high;
    let [y20, y19, y21, y18] = sums;
    let t2 = y12 & y15;
    let t3 = y3 & y6;
    let t4 = t3 ^ t2;
    let t5 = y4 & x7;
    let t6 = t5 ^ t2;
    let t7 = y13 & y16;
    let t8 = y5 & y1;
    let t9 = t8 ^ t7;
    let t10 = y2 & y7;
    let t11 = t10 ^ t7;
    let t12 = y9 & y11;
    let t13 = y14 & y17;
    let t14 = t13 ^ t12;
    let t15 = y8 & y10;
    let t16 = t15 ^ t12;
    let t17 = t4 ^ t14;
    let t18 = t6 ^ t16;
    let t19 = t9 ^ t14;
    let t20 = t11 ^ t16;
    let t21 = t17 ^ y20;
    let t22 = t18 ^ y19;
    let t23 = t19 ^ y21;
    let t24 = t20 ^ y18;
    [t21, t22, t23, t24]
}

// Its inverse in GF(2^4), and sums of the bits of the inverse.
fn inverse(t: [u64; 4]) -> [u64; 9]
    ensures { result ≡ inverse t }
{
    let [t21, t22, t23, t24] = t;
    let t25 = t21 ^ t22;
    let t26 = t21 & t23;
    let t27 = t24 ^ t26;
    let t28 = t25 & t27;
    let t29 = t28 ^ t22;
    let t30 = t23 ^ t24;
    let t31 = t22 ^ t26;
    let t32 = t31 & t30;
    let t33 = t32 ^ t24;
    let t34 = t23 ^ t33;
    let t35 = t27 ^ t33;
    let t36 = t24 & t35;
    let t37 = t36 ^ t34;
    let t38 = t27 ^ t36;
    let t39 = t29 & t38;
    let t40 = t25 ^ t39;
    let t41 = t40 ^ t37;
    let t42 = t29 ^ t33;
    let t43 = t29 ^ t40;
    let t44 = t33 ^ t37;
    let t45 = t42 ^ t41;
    [t44, t37, t33, t43, t40, t29, t42, t45, t41]
}

// Nine of the eighteen products that give the inverse in GF(2^8).
fn products(y: [u64; 9], t: [u64; 9]) -> [u64; 9]
    ensures { result ≡ products y t }
{
    let [y0, y1, y2, y3, y4, y5, y6, y7, y8] = y;
    let [t44, t37, t33, t43, t40, t29, t42, t45, t41] = t;
    [
        t44 & y0,
        t37 & y1,
        t33 & y2,
        t43 & y3,
        t40 & y4,
        t29 & y5,
        t42 & y6,
        t45 & y7,
        t41 & y8,
    ]
}

// The linear layer at the bottom: back to the basis of the bytes, and the affine map.
fn bottom(z: [u64; 9], w: [u64; 9]) -> [u64; 8]
    ensures { result ≡ bottom 0xffff_ffff_ffff_ffff z w }
{
    let [z0, z1, z2, z3, z4, z5, z6, z7, z8] = z;
    let [z9, z10, z11, z12, z13, z14, z15, z16, z17] = w;
    let t46 = z15 ^ z16;
    let t47 = z10 ^ z11;
    let t48 = z5 ^ z13;
    let t49 = z9 ^ z10;
    let t50 = z2 ^ z12;
    let t51 = z2 ^ z5;
    let t52 = z7 ^ z8;
    let t53 = z0 ^ z3;
    let t54 = z6 ^ z7;
    let t55 = z16 ^ z17;
    let t56 = z12 ^ t48;
    let t57 = t50 ^ t53;
    let t58 = z4 ^ t46;
    let t59 = z3 ^ t54;
    let t60 = t46 ^ t57;
    let t61 = z14 ^ t57;
    let t62 = t52 ^ t58;
    let t63 = t49 ^ t58;
    let t64 = z4 ^ t59;
    let t65 = t61 ^ t62;
    let t66 = z1 ^ t63;
    let s0 = t59 ^ t63;
    let u6 = t56 ^ t62;
    let u7 = t48 ^ t60;
    let t67 = t64 ^ t65;
    let s3 = t53 ^ t66;
    let s4 = t51 ^ t66;
    let s5 = t47 ^ t65;
    let u1 = t64 ^ s3;
    let u2 = t55 ^ t67;
    [u7 ^ ONES, u6 ^ ONES, s5, s4, s3, u2 ^ ONES, u1 ^ ONES, s0]
}

// S at each bit position of eight planes, the plane of the lowest bits first.
pub(crate) fn sboxes(p: [u64; 8]) -> [u64; 8]
    ensures { result ≡ sboxes 0xffff_ffff_ffff_ffff p }
{
    let (low, high, sums) = top(p);
    let t = inverse(norm(low, high, sums));
    bottom(products(low, t), products(high, t))
}

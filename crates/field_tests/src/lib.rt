// Every value of every supplied field, and of the field of order 9, beside values that are worked out here in another way.
#![tactic(auto)]

#[cfg(test)]
mod tests {
    use field::{Binary, Field, Prime, Refusal};
    use nine::Nine;
    use std::process::Abort;
    use std::test::Fail;

    // A second opinion on the codes below an order.
    trait Expected {
        fn order(&self) -> u16;

        fn sum(&self, a: u16, b: u16) -> u16;

        fn product(&self, a: u16, b: u16) -> u16;
    }

    // Residues, counted out one by one up to the modulus.
    #[derive(Drop)]
    struct Counted(u16);

    impl Expected for Counted {
        fn order(&self) -> u16 {
            self.0
        }

        fn sum(&self, a: u16, b: u16) -> u16 {
            let mut total = a;
            for _ in 0..b {
                let next = total.wrapping_add(1);
                total = if next == self.0 { 0 } else { next };
            }
            total
        }

        fn product(&self, a: u16, b: u16) -> u16 {
            let mut total = 0;
            for _ in 0..b {
                total = self.sum(total, a);
            }
            total
        }
    }

    // Polynomials over the bits: multiplied term by term, then divided by the reduction polynomial.
    #[derive(Drop)]
    struct Polynomials {
        order: u16,
        reduction: u16,
    }

    impl Expected for Polynomials {
        fn order(&self) -> u16 {
            self.order
        }

        fn sum(&self, a: u16, b: u16) -> u16 {
            a ^ b
        }

        fn product(&self, a: u16, b: u16) -> u16 {
            let mut rest = 0;
            for i in 0..4u32 {
                if (b >> i) % 2 == 1 {
                    rest ^= a << i;
                }
            }
            for i in (0..4u32).rev() {
                if rest & (self.order << i) != 0 {
                    rest ^= self.reduction << i;
                }
            }
            rest
        }
    }

    // Pairs of residues modulo 3: (x + y·i)·(u + v·i) = (x·u − y·v) + (x·v + y·u)·i.
    #[derive(Drop)]
    struct Pairs;

    fn pair(re: u16, im: u16) -> u16 {
        re % 3 + im % 3 * 3
    }

    impl Expected for Pairs {
        fn order(&self) -> u16 {
            9
        }

        fn sum(&self, a: u16, b: u16) -> u16 {
            pair((a % 3).wrapping_add(b % 3), (a / 3).wrapping_add(b / 3))
        }

        fn product(&self, a: u16, b: u16) -> u16 {
            let (x, y) = (a % 3, a / 3);
            let (u, v) = (b % 3, b / 3);
            let minus = 9u16.wrapping_sub(y.wrapping_mul(v));
            pair(
                x.wrapping_mul(u).wrapping_add(minus),
                x.wrapping_mul(v).wrapping_add(y.wrapping_mul(u)),
            )
        }
    }

    // The negative and the inverse of `a` are the codes at which the sum is 0 and the product 1, and each is met once.
    fn row<F: Field, E: Expected>(rt: &impl Abort, f: &F, e: &E, a: u16) {
        for b in 0..e.order() {
            assert_eq!(rt; f.sum(a, b), e.sum(a, b));
            assert_eq!(rt; f.product(a, b), e.product(a, b));
            if e.sum(a, b) == 0 {
                assert_eq!(rt; f.negative(a), b);
            }
            if e.product(a, b) == 1 {
                assert_eq!(rt; f.inverse(a), Some(b));
            }
        }
        let negatives = (0..e.order()).filter(|b| e.sum(a, *b) == 0).count();
        let inverses = (0..e.order()).filter(|b| e.product(a, *b) == 1).count();
        assert_eq!(rt; negatives, 1);
        assert_eq!(rt; inverses, if a == 0 { 0 } else { 1 });
    }

    // A code that is not below the order is read as 0.
    fn read_as_zero<F: Field>(rt: &impl Abort, f: &F, code: u16) {
        assert_eq!(rt; f.negative(code), 0);
        assert_eq!(rt; f.inverse(code), None);
        for b in 0..f.order() {
            assert_eq!(rt; f.sum(code, b), b);
            assert_eq!(rt; f.sum(b, code), b);
            assert_eq!(rt; f.product(code, b), 0);
            assert_eq!(rt; f.product(b, code), 0);
        }
    }

    fn agrees<F: Field, E: Expected>(rt: &impl Abort, f: &F, e: &E) {
        assert_eq!(rt; f.order(), e.order());
        for a in 0..e.order() {
            row(rt, f, e, a);
        }
        assert_eq!(rt; f.inverse(0), None);
        for code in [e.order(), 255, 65535] {
            read_as_zero(rt, f, code);
        }
    }

    #[test]
    fn primes_agree(rt: HostRuntime) -> Result<(), Fail> {
        for p in [2, 3, 5, 7, 11, 13, 17, 19, 23, 29, 31] {
            let f = Prime::new(p).map_err(|_| Fail::new("no such prime field"))?;
            agrees(&rt, &f, &Counted(p));
        }
        Ok(())
    }

    #[test]
    fn binary_fields_agree(rt: HostRuntime) -> Result<(), Fail> {
        for (k, order, reduction) in [(2, 4, 0b111), (3, 8, 0b1011), (4, 16, 0b10011)] {
            let f = Binary::new(k).map_err(|_| Fail::new("no such binary field"))?;
            agrees(&rt, &f, &Polynomials { order, reduction });
        }
        Ok(())
    }

    #[test]
    fn nine_agrees(rt: HostRuntime) {
        agrees(&rt, &Nine, &Pairs);
    }

    fn refused(rt: &impl Abort, refusal: Refusal) {
        assert_eq!(rt; refusal, Refusal::UnknownField);
        assert_eq!(rt; refusal.number(), 17);
    }

    #[test]
    fn others_are_refused(rt: HostRuntime) {
        for n in 0..301 {
            match Prime::new(n) {
                Ok(_) => assert!(rt; matches!(n, 2 | 3 | 5 | 7 | 11 | 13 | 17 | 19 | 23 | 29 | 31)),
                Err(refusal) => refused(&rt, refusal),
            }
            match Binary::new(n) {
                Ok(_) => assert!(rt; matches!(n, 2 | 3 | 4)),
                Err(refusal) => refused(&rt, refusal),
            }
        }
    }
}

//! Tuples of types of which only DER and CER have one encoding (X.690, 8.9 and 9 to 11).
ghost use Rattle.yasna_base.specs.Exact.{enclosed_fits, part_fits, nothing_fits};
ghost use Rattle.yasna_base.proofs.Exact.{no_part_exact, part_exact, tuple_exact};

use crate::exact::DERExact;

impl<A: DERExact> DERExact for (A,) {
    ghost fits = { λ m n v. enclosed_fits (part_fits A.fits nothing_fits) m n (v.0, tt) };

    ghost exact = { tuple_exact (λ v. (v.0, tt)) (part_exact A.exact no_part_exact) };
}

impl<A: DERExact, B: DERExact> DERExact for (A, B) {
    ghost fits = { λ m n v. enclosed_fits (part_fits A.fits (part_fits B.fits nothing_fits)) m n (v.0, (v.1, tt)) };

    ghost exact = { tuple_exact (λ v. (v.0, (v.1, tt))) (part_exact A.exact (part_exact B.exact no_part_exact)) };
}

impl<A: DERExact, B: DERExact, C: DERExact> DERExact for (A, B, C) {
    ghost fits = { λ m n v. enclosed_fits (part_fits A.fits (part_fits B.fits (part_fits C.fits nothing_fits))) m n (v.0, (v.1, (v.2, tt))) };

    ghost exact = { tuple_exact (λ v. (v.0, (v.1, (v.2, tt)))) (part_exact A.exact (part_exact B.exact (part_exact C.exact no_part_exact))) };
}

impl<A: DERExact, B: DERExact, C: DERExact, D: DERExact> DERExact for (A, B, C, D) {
    ghost fits = { λ m n v. enclosed_fits (part_fits A.fits (part_fits B.fits (part_fits C.fits (part_fits D.fits nothing_fits)))) m n (v.0, (v.1, (v.2, (v.3, tt)))) };

    ghost exact = { tuple_exact (λ v. (v.0, (v.1, (v.2, (v.3, tt))))) (part_exact A.exact (part_exact B.exact (part_exact C.exact (part_exact D.exact no_part_exact)))) };
}

impl<A: DERExact, B: DERExact, C: DERExact, D: DERExact, E: DERExact> DERExact for (A, B, C, D, E) {
    ghost fits = { λ m n v. enclosed_fits (part_fits A.fits (part_fits B.fits (part_fits C.fits (part_fits D.fits (part_fits E.fits nothing_fits))))) m n (v.0, (v.1, (v.2, (v.3, (v.4, tt))))) };

    ghost exact = { tuple_exact (λ v. (v.0, (v.1, (v.2, (v.3, (v.4, tt)))))) (part_exact A.exact (part_exact B.exact (part_exact C.exact (part_exact D.exact (part_exact E.exact no_part_exact))))) };
}

impl<A: DERExact, B: DERExact, C: DERExact, D: DERExact, E: DERExact, F: DERExact> DERExact
    for (A, B, C, D, E, F) {
    ghost fits = { λ m n v. enclosed_fits (part_fits A.fits (part_fits B.fits (part_fits C.fits (part_fits D.fits (part_fits E.fits (part_fits F.fits nothing_fits)))))) m n (v.0, (v.1, (v.2, (v.3, (v.4, (v.5, tt)))))) };

    ghost exact = { tuple_exact (λ v. (v.0, (v.1, (v.2, (v.3, (v.4, (v.5, tt))))))) (part_exact A.exact (part_exact B.exact (part_exact C.exact (part_exact D.exact (part_exact E.exact (part_exact F.exact no_part_exact)))))) };
}

impl<
    A: DERExact,
    B: DERExact,
    C: DERExact,
    D: DERExact,
    E: DERExact,
    F: DERExact,
    G: DERExact,
> DERExact for (A, B, C, D, E, F, G) {
    ghost fits = { λ m n v. enclosed_fits (part_fits A.fits (part_fits B.fits (part_fits C.fits (part_fits D.fits (part_fits E.fits (part_fits F.fits (part_fits G.fits nothing_fits))))))) m n (v.0, (v.1, (v.2, (v.3, (v.4, (v.5, (v.6, tt))))))) };

    ghost exact = { tuple_exact (λ v. (v.0, (v.1, (v.2, (v.3, (v.4, (v.5, (v.6, tt)))))))) (part_exact A.exact (part_exact B.exact (part_exact C.exact (part_exact D.exact (part_exact E.exact (part_exact F.exact (part_exact G.exact no_part_exact))))))) };
}

impl<
    A: DERExact,
    B: DERExact,
    C: DERExact,
    D: DERExact,
    E: DERExact,
    F: DERExact,
    G: DERExact,
    H: DERExact,
> DERExact for (A, B, C, D, E, F, G, H) {
    ghost fits = { λ m n v. enclosed_fits (part_fits A.fits (part_fits B.fits (part_fits C.fits (part_fits D.fits (part_fits E.fits (part_fits F.fits (part_fits G.fits (part_fits H.fits nothing_fits)))))))) m n (v.0, (v.1, (v.2, (v.3, (v.4, (v.5, (v.6, (v.7, tt)))))))) };

    ghost exact = { tuple_exact (λ v. (v.0, (v.1, (v.2, (v.3, (v.4, (v.5, (v.6, (v.7, tt))))))))) (part_exact A.exact (part_exact B.exact (part_exact C.exact (part_exact D.exact (part_exact E.exact (part_exact F.exact (part_exact G.exact (part_exact H.exact no_part_exact)))))))) };
}

impl<
    A: DERExact,
    B: DERExact,
    C: DERExact,
    D: DERExact,
    E: DERExact,
    F: DERExact,
    G: DERExact,
    H: DERExact,
    I: DERExact,
> DERExact for (A, B, C, D, E, F, G, H, I) {
    ghost fits = { λ m n v. enclosed_fits (part_fits A.fits (part_fits B.fits (part_fits C.fits (part_fits D.fits (part_fits E.fits (part_fits F.fits (part_fits G.fits (part_fits H.fits (part_fits I.fits nothing_fits))))))))) m n (v.0, (v.1, (v.2, (v.3, (v.4, (v.5, (v.6, (v.7, (v.8, tt))))))))) };

    ghost exact = { tuple_exact (λ v. (v.0, (v.1, (v.2, (v.3, (v.4, (v.5, (v.6, (v.7, (v.8, tt)))))))))) (part_exact A.exact (part_exact B.exact (part_exact C.exact (part_exact D.exact (part_exact E.exact (part_exact F.exact (part_exact G.exact (part_exact H.exact (part_exact I.exact no_part_exact))))))))) };
}

impl<
    A: DERExact,
    B: DERExact,
    C: DERExact,
    D: DERExact,
    E: DERExact,
    F: DERExact,
    G: DERExact,
    H: DERExact,
    I: DERExact,
    J: DERExact,
> DERExact for (A, B, C, D, E, F, G, H, I, J) {
    ghost fits = { λ m n v. enclosed_fits (part_fits A.fits (part_fits B.fits (part_fits C.fits (part_fits D.fits (part_fits E.fits (part_fits F.fits (part_fits G.fits (part_fits H.fits (part_fits I.fits (part_fits J.fits nothing_fits)))))))))) m n (v.0, (v.1, (v.2, (v.3, (v.4, (v.5, (v.6, (v.7, (v.8, (v.9, tt)))))))))) };

    ghost exact = { tuple_exact (λ v. (v.0, (v.1, (v.2, (v.3, (v.4, (v.5, (v.6, (v.7, (v.8, (v.9, tt))))))))))) (part_exact A.exact (part_exact B.exact (part_exact C.exact (part_exact D.exact (part_exact E.exact (part_exact F.exact (part_exact G.exact (part_exact H.exact (part_exact I.exact (part_exact J.exact no_part_exact)))))))))) };
}

impl<
    A: DERExact,
    B: DERExact,
    C: DERExact,
    D: DERExact,
    E: DERExact,
    F: DERExact,
    G: DERExact,
    H: DERExact,
    I: DERExact,
    J: DERExact,
    K: DERExact,
> DERExact for (A, B, C, D, E, F, G, H, I, J, K) {
    ghost fits = { λ m n v. enclosed_fits (part_fits A.fits (part_fits B.fits (part_fits C.fits (part_fits D.fits (part_fits E.fits (part_fits F.fits (part_fits G.fits (part_fits H.fits (part_fits I.fits (part_fits J.fits (part_fits K.fits nothing_fits))))))))))) m n (v.0, (v.1, (v.2, (v.3, (v.4, (v.5, (v.6, (v.7, (v.8, (v.9, (v.10, tt))))))))))) };

    ghost exact = { tuple_exact (λ v. (v.0, (v.1, (v.2, (v.3, (v.4, (v.5, (v.6, (v.7, (v.8, (v.9, (v.10, tt)))))))))))) (part_exact A.exact (part_exact B.exact (part_exact C.exact (part_exact D.exact (part_exact E.exact (part_exact F.exact (part_exact G.exact (part_exact H.exact (part_exact I.exact (part_exact J.exact (part_exact K.exact no_part_exact))))))))))) };
}

impl<
    A: DERExact,
    B: DERExact,
    C: DERExact,
    D: DERExact,
    E: DERExact,
    F: DERExact,
    G: DERExact,
    H: DERExact,
    I: DERExact,
    J: DERExact,
    K: DERExact,
    L: DERExact,
> DERExact for (A, B, C, D, E, F, G, H, I, J, K, L) {
    ghost fits = { λ m n v. enclosed_fits (part_fits A.fits (part_fits B.fits (part_fits C.fits (part_fits D.fits (part_fits E.fits (part_fits F.fits (part_fits G.fits (part_fits H.fits (part_fits I.fits (part_fits J.fits (part_fits K.fits (part_fits L.fits nothing_fits)))))))))))) m n (v.0, (v.1, (v.2, (v.3, (v.4, (v.5, (v.6, (v.7, (v.8, (v.9, (v.10, (v.11, tt)))))))))))) };

    ghost exact = { tuple_exact (λ v. (v.0, (v.1, (v.2, (v.3, (v.4, (v.5, (v.6, (v.7, (v.8, (v.9, (v.10, (v.11, tt))))))))))))) (part_exact A.exact (part_exact B.exact (part_exact C.exact (part_exact D.exact (part_exact E.exact (part_exact F.exact (part_exact G.exact (part_exact H.exact (part_exact I.exact (part_exact J.exact (part_exact K.exact (part_exact L.exact no_part_exact)))))))))))) };
}

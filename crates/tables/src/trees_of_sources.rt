//! Sources that the grammar has, with the shape of their trees. The command lines have those that it lacks.

use crate::Count;
use crate::page::Page;
use crate::scanned::scanned;
use crate::shape::Shape;
use std::alloc::Global;
use syntax::parse;

// Sources with their trees.
static TREES: [(&[u8], &[u8]); 62] = [
    (b"M: DO; END M;", b"(M END M)"),
    (b"m$on: DO; END;", b"(MON END)"),
    (b"M: DO; ; END M;", b"(M ; END M)"),
    (b"M:DO;;;END;", b"(M ; ; END)"),
    (b"M: DO; HALT; END M; ", b"(M (HALT) END M)"),
    (b"M: DO; A = 1; END;", b"(M (= A 1) END)"),
    (
        b"M: DO; A, B(1), S.C = 2; END;",
        b"(M (= A B(1) S.C 2) END)",
    ),
    (b"M: DO; S(I).B(J) = K; END;", b"(M (= S(I).B(J) K) END)"),
    (b"M: DO; CALL P; END;", b"(M (CALL P) END)"),
    (b"M: DO; CALL P(1, A); END;", b"(M (CALL P(1 A)) END)"),
    (b"M: DO; RETURN; END;", b"(M (RETURN) END)"),
    (b"M: DO; RETURN A + 1; END;", b"(M (RETURN (+ A 1)) END)"),
    (b"M: DO; IF A THEN B = 1; END;", b"(M (IF A (= B 1)) END)"),
    (
        b"M: DO; IF A THEN ; ELSE HALT; END;",
        b"(M (IF A ; (HALT)) END)",
    ),
    (
        b"M: DO; IF A THEN IF B THEN C = 1; ELSE C = 2; END;",
        b"(M (IF A (IF B (= C 1) (= C 2))) END)",
    ),
    (
        b"M: DO; IF A THEN IF B THEN C = 1; ELSE C = 2; ELSE C = 3; END;",
        b"(M (IF A (IF B (= C 1) (= C 2)) (= C 3)) END)",
    ),
    (b"M: DO; DO; A = 1; END; END;", b"(M (DO (= A 1)) END)"),
    (
        b"M: DO; DO WHILE A < 3; CALL P; END; END;",
        b"(M (WHILE (< A 3) (CALL P)) END)",
    ),
    (b"M: DO; DO I = 1 TO N; END; END;", b"(M (FROM I 1 N) END)"),
    (
        b"M: DO; DO I = 1 TO N + 1 BY 2; A(I) = 0; END; END;",
        b"(M (FROM I 1 (+ N 1) BY 2 (= A(I) 0)) END)",
    ),
    (
        b"M: DO; DO CASE N; ; A = 1; DO; END; END; END;",
        b"(M (CASE N ; (= A 1) (DO)) END)",
    ),
    (
        b"M: DO; L: A = 1; GOTO L; END;",
        b"(M L: (= A 1) (GOTO L) END)",
    ),
    (b"M: DO; A: B: ; END;", b"(M A: B: ; END)"),
    (
        b"M: DO; L: DO; L: GOTO L; END; END;",
        b"(M L: (DO L: (GOTO L)) END)",
    ),
    (
        b"M: DO; IF A THEN L: HALT; ELSE K: ; END;",
        b"(M (IF A L: (HALT) K: ;) END)",
    ),
    (
        b"M: DO; IF A THEN L: IF B THEN C = 1; ELSE GOTO L; END;",
        b"(M (IF A L: (IF B (= C 1) (GOTO L))) END)",
    ),
    (
        b"M: DO; DO CASE N; L: ; K: HALT; END; END;",
        b"(M (CASE N L: ; K: (HALT)) END)",
    ),
    (
        b"M: DO; DECLARE A BYTE; P: PROCEDURE; L: RETURN; END P; L: CALL P; END M;",
        b"(M (DECLARE (A BYTE)) (PROCEDURE P L: (RETURN) END P) L: (CALL P) END M)",
    ),
    (
        b"M: DO; DO I = 1 TO 9; L: M: A(I) = 0; END; END M;",
        b"(M (FROM I 1 9 L: M: (= A(I) 0)) END M)",
    ),
    (
        b"M: DO; P: Q = 1; R: S.T = 2; END;",
        b"(M P: (= Q 1) R: (= S.T 2) END)",
    ),
    (
        b"M: DO; A = B - C - D; END;",
        b"(M (= A (- (- B C) D)) END)",
    ),
    (
        b"M: DO; A = B - (C - D); END;",
        b"(M (= A (- B <(- C D)>)) END)",
    ),
    (
        b"M: DO; A = B + C * D; END;",
        b"(M (= A (+ B (* C D))) END)",
    ),
    (
        b"M: DO; A = B / C MOD D * 2; END;",
        b"(M (= A (* (MOD (/ B C) D) 2)) END)",
    ),
    (b"M: DO; A = -B + C; END;", b"(M (= A (+ (- B) C)) END)"),
    (b"M: DO; A = B * -C; END;", b"(M (= A (* B (- C))) END)"),
    (
        b"M: DO; A = NOT B = C; END;",
        b"(M (= A (NOT (= B C))) END)",
    ),
    (
        b"M: DO; A = NOT B AND NOT NOT C; END;",
        b"(M (= A (AND (NOT B) (NOT (NOT C)))) END)",
    ),
    (
        b"M: DO; A = B OR C AND D XOR E; END;",
        b"(M (= A (XOR (OR B (AND C D)) E)) END)",
    ),
    (
        b"M: DO; A = B + 1 <= C - 1 AND D <> E; END;",
        b"(M (= A (AND (<= (+ B 1) (- C 1)) (<> D E))) END)",
    ),
    (
        b"M: DO; A = (B := C) + 1; END;",
        b"(M (= A (+ (:= B C) 1)) END)",
    ),
    (
        b"M: DO; A = (B(1) := (C := 2)); END;",
        b"(M (= A (:= B(1) (:= C 2))) END)",
    ),
    (b"M: DO; A = ((B)); END;", b"(M (= A <<B>>) END)"),
    (
        b"M: DO; P = .A; Q = .S(1).B; END;",
        b"(M (= P .A) (= Q .S(1).B) END)",
    ),
    (
        b"M: DO; P = .(1, 'AB', 0FFH); END;",
        b"(M (= P .(1 'AB' 255)) END)",
    ),
    (
        b"M: DO; A = F(1, 'X') + INPUT(1); END;",
        b"(M (= A (+ F(1 'X') INPUT(1))) END)",
    ),
    (
        b"M: DO; IF A = 1 THEN A = A >= 2; END;",
        b"(M (IF (= A 1) (= A (>= A 2))) END)",
    ),
    (
        b"M: DO; DECLARE A BYTE, B ADDRESS; END;",
        b"(M (DECLARE (A BYTE) (B ADDRESS)) END)",
    ),
    (
        b"M: DO; DECLARE (A, B) BYTE; DECLARE C(3) ADDRESS; END;",
        b"(M (DECLARE ((A B) BYTE)) (DECLARE (C (3) ADDRESS)) END)",
    ),
    (
        b"M: DO; DECLARE X BASED P BYTE; END;",
        b"(M (DECLARE (X BASED P BYTE)) END)",
    ),
    (
        b"M: DO; DECLARE S(2) STRUCTURE (A BYTE, B(3) ADDRESS); END;",
        b"(M (DECLARE (S (2) STRUCTURE(A:BYTE B(3):ADDRESS))) END)",
    ),
    (
        b"M: DO; DECLARE A BYTE PUBLIC, B BYTE EXTERNAL; END;",
        b"(M (DECLARE (A BYTE PUBLIC) (B BYTE EXTERNAL)) END)",
    ),
    (
        b"M: DO; DECLARE A BYTE AT (100H + 2 - 1); END;",
        b"(M (DECLARE (A BYTE AT 256+2-1)) END)",
    ),
    (
        b"M: DO; DECLARE A(*) BYTE INITIAL ('AB', .B + 1, 3); END;",
        b"(M (DECLARE (A (*) BYTE INITIAL('AB' .B+1 3))) END)",
    ),
    (
        b"M: DO; DECLARE A BYTE PUBLIC AT (.B) DATA (1); END;",
        b"(M (DECLARE (A BYTE PUBLIC AT .B DATA(1))) END)",
    ),
    (
        b"M: DO; DECLARE N LITERALLY 'A ''B'; END;",
        b"(M (DECLARE (N LITERALLY 'A 'B')) END)",
    ),
    (
        b"M: DO; P: PROCEDURE; END P; END;",
        b"(M (PROCEDURE P END P) END)",
    ),
    (
        b"M: DO; P: PROCEDURE (A, B) BYTE PUBLIC REENTRANT; RETURN A; END; END;",
        b"(M (PROCEDURE P(A B) BYTE PUBLIC REENTRANT (RETURN A) END) END)",
    ),
    (
        b"M: DO; P: PROCEDURE EXTERNAL; DECLARE A BYTE; END P; CALL P; END;",
        b"(M (PROCEDURE P EXTERNAL (DECLARE (A BYTE)) END P) (CALL P) END)",
    ),
    (
        b"M: DO; P: PROCEDURE; Q: PROCEDURE ADDRESS; END Q; DO; DECLARE A BYTE; END; END P; END M;",
        b"(M (PROCEDURE P (PROCEDURE Q ADDRESS END Q) (DO (DECLARE (A BYTE))) END P) END M)",
    ),
    (
        b"M: DO; DO; P: PROCEDURE; END P; CALL P; END; END M;",
        b"(M (DO (PROCEDURE P END P) (CALL P)) END M)",
    ),
    (
        b"M: DO; DECLARE A BYTE; A = 1; L: ; GOTO L; END M;",
        b"(M (DECLARE (A BYTE)) (= A 1) L: ; (GOTO L) END M)",
    ),
];

// Sources in which each constructor of a tree is called, with their trees and the places of their names.
static PLACES: [(&[u8], &[u8]); 9] = [
    (
        b"M: DO; A = S(1).B; END;",
        b"(M@0 (= A@7 S@11(1).B@16) END)",
    ),
    (
        b"M: DO; P = .('A'); P = .A; P = A; END;",
        b"(M@0 (= P@7 .('A')) (= P@19 .A@24) (= P@27 A@31) END)",
    ),
    (
        b"M: DO; X = (A := 2 + (-1)); END;",
        b"(M@0 (= X@7 (:= A@12 (+ 2 <(- 1)>))) END)",
    ),
    (
        b"M: DO; A, B = 3; CALL P(4); RETURN; RETURN 5; END;",
        b"(M@0 (= A@7 B@10 3) (CALL P@22(4)) (RETURN) (RETURN 5) END)",
    ),
    (
        b"M: DO; A: B: GOTO B; END;",
        b"(M@0 A@7: B@10: (GOTO B@18) END)",
    ),
    (
        b"M: DO; IF 1 THEN HALT; ELSE; END;",
        b"(M@0 (IF 1 (HALT) ;) END)",
    ),
    (
        b"M: DO; DO; DO WHILE 1; HALT; END; END; DO I = 1 TO 2; END; DO CASE 0; END; END;",
        b"(M@0 (DO (WHILE 1 (HALT))) (FROM I@42 1 2) (CASE 0) END)",
    ),
    (
        b"M: DO; DECLARE N LITERALLY '1', (A) BYTE; END;",
        b"(M@0 (DECLARE (N@15 LITERALLY '1') ((A@33) BYTE)) END)",
    ),
    (
        b"M: DO; P: PROCEDURE BYTE PUBLIC; END P; END M;",
        b"(M@0 (PROCEDURE P@7 BYTE PUBLIC END P@37) END M@44)",
    ),
];

// Whether the tree of a source has this shape.
fn has_shape(alloc: Global, source: &[u8], wanted: &[u8], shows_places: bool) -> bool {
    let Some(words) = scanned(alloc, source) else {
        return false;
    };
    let Ok(module) = parse(alloc, words.as_slice()) else {
        return false;
    };
    let mut shape = Shape {
        page: Page::new(alloc),
        shows_places,
    };
    shape.module(&module);
    shape.page.has(wanted)
}

// Prints how many sources have other trees than they are to have.
fn print_shapes(page: &mut Page, rows: &[(&[u8], &[u8])], shows_places: bool, what: &str) {
    let mut count = Count::new();
    for (source, wanted) in rows {
        count.add(has_shape(page.alloc(), source, wanted, shows_places));
    }
    count.print(page, what, " differ\n");
}

/// Prints how many sources have other trees, and how many have names at other places.
pub fn print_trees(page: &mut Page) {
    print_shapes(page, &TREES, false, " trees of sources, ");
    print_shapes(page, &PLACES, true, " trees with the places of names, ");
}

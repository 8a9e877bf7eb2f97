//! Texts that are no queries, each with its first fault: a table for each part of the grammar.

use crate::show::Readings;
use crate::table::all_hold;
use std::test::Fail;

#[test]
fn a_sign_out_of_place_is_bad(rt: HostRuntime) -> Result<(), Fail> {
    const ROWS: &str = "\
\x20=> Bad 0
\x20\t  => Bad 3
) => Bad 0
& => Bad 0
| => Bad 0
OR red => Bad 0
~ => Bad 0
( => Bad 1
() => Bad 1
(red => Bad 4
(red |  => Bad 7
(red & ) => Bad 7
red) => Bad 3
(red)) => Bad 5
red & => Bad 5
red & & blue => Bad 6
red | => Bad 5
red | | blue => Bad 6
red ~ => Bad 5
red ~ ) => Bad 6
! => Bad 1
! & => Bad 2
red (blue) => Bad 4
red !blue => Bad 4
red @DocTitle x => Bad 4
red #Filename x => Bad 4";
    all_hold::<Readings>(rt.alloc(), ROWS)
}

#[test]
fn a_broken_piece_is_bad(rt: HostRuntime) -> Result<(), Fail> {
    const ROWS: &str = "\
\" => Bad 0
red \"x => Bad 4
@DocTitle \"x => Bad 10
@DocTitle = \"x => Bad 12
#Filename \"x => Bad 10
@ => Bad 0
@ red => Bad 0
red @ => Bad 4
# => Bad 0
(#) => Bad 1";
    all_hold::<Readings>(rt.alloc(), ROWS)
}

#[test]
fn words_out_of_form_are_bad(rt: HostRuntime) -> Result<(), Fail> {
    const ROWS: &str = "\
\"\" => Bad 0
- => Bad 0
red & - => Bad 6
@DocTitle => Bad 9
@DocTitle ) => Bad 10
@DocTitle - => Bad 10
re* red => Bad 0
red re* => Bad 4
red re* blue => Bad 4
\"x\" re* => Bad 4
the a* => Bad 4
a-b* => Bad 0
re** => Bad 0
* => Bad 0
@DocTitle a-b* => Bad 10";
    all_hold::<Readings>(rt.alloc(), ROWS)
}

#[test]
fn operands_of_near_have_one_property(rt: HostRuntime) -> Result<(), Fail> {
    const ROWS: &str = "\
(a1|b1) ~ (c1 => Bad 0
(!a1) ~ b1 => Bad 0
@Size = 5 ~ a1 => Bad 0
#Filename x ~ a1 => Bad 0
a1 ~ @DocTitle b1 => Bad 5
@DocTitle a1 ~ b1 => Bad 15
a1 ~ !b1 => Bad 5
a1 ~ (b1 & c1) => Bad 5
a1 ~ @Size = 5 => Bad 5
a1 ~ b1 ~ @DocTitle c1 => Bad 10
a1 ~ b1 ~ (c1 ~ d1) => Bad 10";
    all_hold::<Readings>(rt.alloc(), ROWS)
}

#[test]
fn a_value_out_of_place_is_bad(rt: HostRuntime) -> Result<(), Fail> {
    const ROWS: &str = "\
@Size => Bad 5
@Size = => Bad 7
@Size = ( => Bad 8
@Size !5 => Bad 6
@Size ! = 5 => Bad 6
@DocTitle == x => Bad 13
@Colour = ) => Bad 10
@Colour ( => Bad 8
#Filename => Bad 9
#Filename ( => Bad 10
#Colour => Bad 7
#scope => Bad 6
#scope d => Bad 7
#scope d/ => Bad 7
#scope \"\" => Bad 7";
    all_hold::<Readings>(rt.alloc(), ROWS)
}

#[test]
fn an_unknown_name_is_a_fault_at_its_sign(rt: HostRuntime) -> Result<(), Fail> {
    const ROWS: &str = "\
@Colour red => UnknownProperty 0
@Colour = x => UnknownProperty 0
red & #Colour x => UnknownProperty 6
@scope /d => UnknownProperty 0
@scope = /d => UnknownProperty 0
a1 ~ @Colour b1 => UnknownProperty 5";
    all_hold::<Readings>(rt.alloc(), ROWS)
}

#[test]
fn the_wrong_kind_is_a_fault_at_the_sign_or_the_value(rt: HostRuntime) -> Result<(), Fail> {
    const ROWS: &str = "\
@Size fox => WrongKind 0
@Write \"x\" => WrongKind 0
@Contents = x => WrongKind 0
#Size 5 => WrongKind 0
#Contents x => WrongKind 0
@Size = x => WrongKind 8
@Size = \"\" => WrongKind 8
@Size = - => WrongKind 8
@Size = --5 => WrongKind 8
@Size = +5 => WrongKind 8
@Size = 5.0 => WrongKind 8
@Size = 9223372036854775808 => WrongKind 8
@Size = -9223372036854775809 => WrongKind 8
@Size = 00000000000000000012 => WrongKind 8
red & @Size = x => WrongKind 14";
    all_hold::<Readings>(rt.alloc(), ROWS)
}

#[test]
fn words_that_are_all_noise_are_a_fault(rt: HostRuntime) -> Result<(), Fail> {
    const ROWS: &str = "\
the => OnlyNoise 0
the of => OnlyNoise 0
\"the\" => OnlyNoise 0
red & (the of) => OnlyNoise 7
red | the => OnlyNoise 6
!the => OnlyNoise 1
red ~ the => OnlyNoise 6
@DocTitle the => OnlyNoise 10";
    all_hold::<Readings>(rt.alloc(), ROWS)
}

#[test]
fn the_first_fault_is_the_answer(rt: HostRuntime) -> Result<(), Fail> {
    const ROWS: &str = "\
the & ( => OnlyNoise 0
( & the => Bad 2
@Size fox ~ ( => WrongKind 0
@Colour the => UnknownProperty 0
@Size the => WrongKind 0
red & blue) | the => Bad 10
@DocTitle re* x ~ ( => Bad 10";
    all_hold::<Readings>(rt.alloc(), ROWS)
}

//! Queries, each with its tree. A tree is shown as `show` says.

use crate::show::Readings;
use crate::table::all_hold;
use std::test::Fail;

#[test]
fn words_give_these_trees(rt: HostRuntime) -> Result<(), Fail> {
    const ROWS: &str = "\
fox => 1:fox
Red fox => 1:[red fox]
\"king of hearts\" => 1:[king _ hearts]
the king => 1:king
king the => 1:king
the king of the hearts in => 1:[king _ _ hearts]
of king, queen of => 1:[king queen]
king \"of hearts\" => 1:[king _ hearts]
re* => 1:re*
the* => 1:the*
@DocTitle Night train => 5:[night train]
@doctitle\"Night\" => 5:night
@Filename a.txt => 2:a.txt";
    all_hold::<Readings>(rt.alloc(), ROWS)
}

#[test]
fn operators_bind_in_this_order(rt: HostRuntime) -> Result<(), Fail> {
    const ROWS: &str = "\
red | blue => |(1:red 1:blue)
red OR blue => |(1:red 1:blue)
red or blue Or green => |(1:red 1:blue 1:green)
red & blue AND green => &(1:red 1:blue 1:green)
red&blue|green => |(&(1:red 1:blue) 1:green)
red And (blue | green) => &(1:red |(1:blue 1:green))
NOT red & blue => &(!1:red 1:blue)
!red ~ blue => !~1(1:red 1:blue)
red & !blue | green => |(&(1:red !1:blue) 1:green)
!!red => !!1:red
red ~ blue near green => ~1(1:red 1:blue 1:green)
(red) ~ re* => ~1(1:red 1:re*)
((red)) => 1:red
@DocTitle a1 ~ @DocTitle b1 => ~5(5:a1 5:b1)";
    all_hold::<Readings>(rt.alloc(), ROWS)
}

#[test]
fn values_give_these_trees(rt: HostRuntime) -> Result<(), Fail> {
    const ROWS: &str = "\
@Write >= 20240101 => 4>=20240101
@Write >= -5 => 4>=-5
@Size!=007 => 3!=7
@Size<=5 => 3<=5
@Size<5 => 3<5
@Size>5 => 3>5
@Size = \"5\" => 3=5
@Size = -9223372036854775808 => 3=-9223372036854775808
@Size = 0000000000000000012 => 3=12
@DocTitle = and => 5='and'
@DocTitle = \"\" => 5=''
@DocTitle = \"Night train\" => 5='Night train'
@DocTitle ==x => 5='=x'
@DocTitle = @x => 5='@x'
#Filename *.txt | steam => |(2#*.txt 1:steam)
#Filename \"\" => 2#
#filename \"a b?\" => 2#a b?
#Filename #? => 2##?
#scope /d/e => /d/e
#SCOPE \"/\" => /";
    all_hold::<Readings>(rt.alloc(), ROWS)
}

// The value of each operator, on numbers within 10^15.
ghost use Rattle.std.specs.Prelude.{◌≡◌, ℤ, ◌+ℤ◌, ◌-ℤ◌, ◌*ℤ◌, neg_ℤ};
ghost use Rattle.std.specs.Int.{int_max};
ghost use Rattle.jet_items.specs.Ranges.{IsWithin, most_time};
ghost use Rattle.jet_expr.specs.Value.{held, field_value, unary_value, operator_value, floor_quotient, floor_remainder};

use crate::field::Field;
use crate::operator::{Operator, Unary};
use jet_items::Event;

pub fn read_field(field: Field, event: &Event) -> i64
    ensures value { result ≡ field_value field event.now }
    ensures small { IsWithin most_time result }
{
    match field {
        Field::Ts => event.ts,
        Field::Part => i64::from(event.part),
        Field::V0 => event.v[0],
        Field::V1 => event.v[1],
        Field::V2 => event.v[2],
        Field::V3 => event.v[3],
    }
}

fn held(z: i128) -> i64
    ensures value { result ≡ held z }
    ensures small { IsWithin most_time result }
{
    z.min(1_000_000_000_000_000).max(-1_000_000_000_000_000) as i64
}

pub fn one_value(op: Unary, a: i64) -> i64
    requires { IsWithin most_time a }
    ensures value { result ≡ unary_value op a }
    ensures small { IsWithin most_time result }
{
    match op {
        Unary::Negate => held(-i128::from(a)),
        Unary::Absolute => absolute(a),
        Unary::Not => i64::from(a == 0),
    }
}

fn floor_quotient(a: i64, b: i64) -> i64
    requires { IsWithin most_time a × IsWithin most_time b }
    ensures { result ≡ floor_quotient a b }
{
    if b == 0 {
        0
    } else if b < 0 {
        (-a).div_euclid(-b)
    } else {
        a.div_euclid(b)
    }
}

fn absolute(a: i64) -> i64
    requires { IsWithin most_time a }
    ensures value { result ≡ held (int_max a (neg_ℤ a)) }
    ensures small { IsWithin most_time result }
{
    let size = a.max(-a);
    held(size as i128)
}

fn sum(a: i64, b: i64) -> i64
    requires { IsWithin most_time a × IsWithin most_time b }
    ensures value { result ≡ held (a +ℤ b) }
    ensures small { IsWithin most_time result }
{
    let sum = a + b;
    held(sum as i128)
}

fn difference(a: i64, b: i64) -> i64
    requires { IsWithin most_time a × IsWithin most_time b }
    ensures value { result ≡ held (a -ℤ b) }
    ensures small { IsWithin most_time result }
{
    let difference = a - b;
    held(difference as i128)
}

fn product(a: i64, b: i64) -> i64
    requires { IsWithin most_time a × IsWithin most_time b }
    ensures value { result ≡ held (a *ℤ b) }
    ensures small { IsWithin most_time result }
{
    held((a as i128) * (b as i128))
}

fn quotient(a: i64, b: i64) -> i64
    requires { IsWithin most_time a × IsWithin most_time b }
    ensures value { result ≡ held (floor_quotient a b) }
    ensures small { IsWithin most_time result }
{
    let quotient = floor_quotient(a, b);
    held(quotient as i128)
}

// What is left of `a` behind `b` times the quotient.
fn floor_remainder(a: i64, b: i64) -> i64
    requires { IsWithin most_time a × IsWithin most_time b }
    ensures { result ≡ floor_remainder a b }
{
    if b == 0 {
        0
    } else if b < 0 {
        -((-a).rem_euclid(-b))
    } else {
        a.rem_euclid(b)
    }
}

fn remainder(a: i64, b: i64) -> i64
    requires { IsWithin most_time a × IsWithin most_time b }
    ensures value { result ≡ held (floor_remainder a b) }
    ensures small { IsWithin most_time result }
{
    let remainder = floor_remainder(a, b);
    held(remainder as i128)
}

pub fn two_value(op: Operator, a: i64, b: i64) -> i64
    requires { IsWithin most_time a × IsWithin most_time b }
    ensures value { result ≡ operator_value op a b }
    ensures small { IsWithin most_time result }
{
    match op {
        Operator::Add => sum(a, b),
        Operator::Subtract => difference(a, b),
        Operator::Multiply => product(a, b),
        Operator::Divide => quotient(a, b),
        Operator::Remainder => remainder(a, b),
        Operator::Equal => i64::from(a == b),
        Operator::Unequal => i64::from(a != b),
        Operator::Less => i64::from(a < b),
        Operator::AtMost => i64::from(a <= b),
        Operator::Greater => i64::from(b < a),
        Operator::AtLeast => i64::from(b <= a),
        Operator::And => i64::from(a != 0 && b != 0),
        Operator::Or => i64::from(a != 0 || b != 0),
        Operator::Least => a.min(b),
        Operator::Greatest => a.max(b),
    }
}

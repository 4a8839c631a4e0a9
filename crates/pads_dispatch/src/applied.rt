ghost use Rattle.std.specs.Prelude.{◌≡◌, true, IfSome, option_map};
ghost use Rattle.pads_dispatch.specs.Applied.{alone as alone_of, number_in, text_in, size_in, stop_in, applied};
ghost use Rattle.pads_dispatch.specs.Labels.{labels_fit};
ghost use Rattle.pads_dispatch.specs.Seen.{seen, applied_fits};

use crate::kinds::size_of;
use crate::{Arg, Base};
use pads_bases::{Labels, Order};
use pads_code::Coding;
use pads_int::Kind;

/// A base type with its arguments.
#[derive(Clone, Copy)]
pub(crate) enum Applied<'a> {
    Int(Kind, Coding),
    IntFw(Kind, Coding, i128),
    Bin(Kind, Order, i128),
    Until(Coding, Option<u8>),
    Fixed(Coding, i128),
    Class(Coding, &'a [u8]),
    Char(Coding),
    Ip(Coding),
    Enum(Coding, &'a Labels),
    Packed(bool, i128),
    Zoned(bool, i128),
}

/// A base type without arguments.
fn alone<'a>(whole: Applied<'a>, args: &[Arg]) -> Option<Applied<'a>>
    ensures alone { option_map seen result ≡ alone_of (seen whole.entry) args.now }
{
    if args.is_empty() { Some(whole) } else { None }
}

/// The only argument, which is a number.
fn number_arg(args: &[Arg]) -> Option<i128>
    ensures number { result ≡ number_in args.now }
{
    match args {
        [Arg::Num(number)] => Some(*number),
        _ => None,
    }
}

/// The only argument, which is a text.
fn text_arg(args: &[Arg]) -> Option<&[u8]>
    ensures text { option_map (λ text. text.now) result ≡ text_in args.now }
{
    match args {
        [Arg::Text(text)] => Some(text.as_slice()),
        _ => None,
    }
}

/// The number of bytes, which is the kind's where no argument says it.
fn size_arg(kind: Kind, args: &[Arg]) -> Option<i128>
    ensures size { result ≡ size_in kind args.now }
{
    if args.is_empty() {
        Some(size_of(kind))
    } else {
        number_arg(args)
    }
}

/// The one code point of a text.
fn only_point(text: &[u8]) -> Option<u8>
    ensures stop { result ≡ stop_in text.now }
{
    match text {
        [stop] => Some(*stop),
        _ => None,
    }
}

/// The base type with its arguments, where they are of its number and sorts.
pub(crate) fn with_args<'a>(base: &'a Base, args: &'a [Arg]) -> Option<Applied<'a>>
    ensures applied { option_map seen result ≡ applied base.now args.now }
{
    match base {
        Base::Int(kind, coding) => alone(Applied::Int(*kind, *coding), args),
        Base::IntFw(kind, coding) => {
            number_arg(args).map(|width| Applied::IntFw(*kind, *coding, width))
        }
        Base::Bin(kind, order) => {
            size_arg(*kind, args).map(|size| Applied::Bin(*kind, *order, size))
        }
        Base::Until(coding) => text_arg(args)
            .and_then(|text| only_point(text))
            .map(|stop| Applied::Until(*coding, Some(stop))),
        Base::UntilEor(coding) => alone(Applied::Until(*coding, None), args),
        Base::Fixed(coding) => number_arg(args).map(|width| Applied::Fixed(*coding, width)),
        Base::Class(coding) => text_arg(args).map(|text| Applied::Class(*coding, text)),
        Base::Char(coding) => alone(Applied::Char(*coding), args),
        Base::Ip(coding) => alone(Applied::Ip(*coding), args),
        Base::Enum(coding, labels) => alone(Applied::Enum(*coding, labels), args),
        Base::Packed(signed) => number_arg(args).map(|digits| Applied::Packed(*signed, digits)),
        Base::Zoned(signed) => number_arg(args).map(|digits| Applied::Zoned(*signed, digits)),
    }
}

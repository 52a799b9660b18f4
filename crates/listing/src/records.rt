// The records of nodes and types, fields in the order of ast.rs.
ghost use Rattle.listing.specs.Text.{node, type_expr};
ghost use Rattle.listing.specs.Lists.{Lists};

use crate::emit::Listed;
use crate::forms::{Field, write_form};
use ast::{Node, TypeExpr};
use text::Writer;

pub(crate) fn write_node(lists: &[u32], n: Node, w: &mut Writer) -> Listed
    ensures { Lists (node lists.now n) w.old w.new result }
{
    match n {
        Node::Atom { id, raw } => {
            write_form(lists, b"Atom", &[Field::Number(id), Field::Token(raw)], w)
        }
        Node::Ident { id, name } => {
            write_form(lists, b"Ident", &[Field::Number(id), Field::Token(name)], w)
        }
        Node::Bin { id, op, lhs, rhs } => {
            let fields = [
                Field::Number(id),
                Field::Token(op),
                Field::Number(lhs.0),
                Field::Number(rhs.0),
            ];
            write_form(lists, b"Bin", &fields, w)
        }
        Node::Unary { id, op, rhs } => {
            let fields = [Field::Number(id), Field::Token(op), Field::Number(rhs.0)];
            write_form(lists, b"Unary", &fields, w)
        }
        Node::Let {
            id,
            docs,
            name,
            rhs,
        } => {
            let fields = [
                Field::Number(id),
                Field::Tokens(docs),
                Field::Token(name),
                Field::Number(rhs.0),
            ];
            write_form(lists, b"Let", &fields, w)
        }
        Node::Fn {
            id,
            docs,
            name,
            args,
            return_type,
            body,
        } => {
            let fields = [
                Field::Number(id),
                Field::Tokens(docs),
                Field::Token(name),
                Field::Pairs(args),
                Field::Number(return_type.0),
                Field::Ids(body),
            ];
            write_form(lists, b"Fn", &fields, w)
        }
        Node::Match {
            id,
            cases,
            default_token,
            default_body,
        } => {
            let fields = [
                Field::Number(id),
                Field::Branches(cases),
                Field::Default(default_token, default_body),
            ];
            write_form(lists, b"Match", &fields, w)
        }
        Node::Call { id, target, args } => {
            let fields = [Field::Number(id), Field::Number(target.0), Field::Ids(args)];
            write_form(lists, b"Call", &fields, w)
        }
        Node::Field { id, target, name } => {
            let fields = [
                Field::Number(id),
                Field::Number(target.0),
                Field::Token(name),
            ];
            write_form(lists, b"Field", &fields, w)
        }
        Node::Cast { id, src, lhs, rhs } => {
            let fields = [
                Field::Number(id),
                Field::Token(src),
                Field::Number(lhs.0),
                Field::Number(rhs.0),
            ];
            write_form(lists, b"Cast", &fields, w)
        }
        Node::Import { id, src, pkgs } => {
            let fields = [Field::Number(id), Field::Token(src), Field::Tokens(pkgs)];
            write_form(lists, b"Import", &fields, w)
        }
        Node::Extern {
            id,
            src,
            docs,
            name,
            fns,
        } => {
            let fields = [
                Field::Number(id),
                Field::Token(src),
                Field::Tokens(docs),
                Field::Token(name),
                Field::ExternFns(fns),
            ];
            write_form(lists, b"Extern", &fields, w)
        }
        Node::Record { id, src, fields } => {
            let fields = [Field::Number(id), Field::Token(src), Field::Pairs(fields)];
            write_form(lists, b"Record", &fields, w)
        }
        Node::Array { id, src, members } => {
            let fields = [Field::Number(id), Field::Token(src), Field::Ids(members)];
            write_form(lists, b"Array", &fields, w)
        }
    }
}

pub(crate) fn write_type(lists: &[u32], t: TypeExpr, w: &mut Writer) -> Listed
    ensures { Lists (type_expr lists.now t) w.old w.new result }
{
    match t {
        TypeExpr::Atom(src) => write_form(lists, b"Atom", &[Field::Token(src)], w),
        TypeExpr::Foreign(src) => write_form(lists, b"Foreign", &[Field::Token(src)], w),
        TypeExpr::Option(inner) => write_form(lists, b"Option", &[Field::Number(inner.0)], w),
        TypeExpr::Array(inner) => write_form(lists, b"Array", &[Field::Number(inner.0)], w),
        TypeExpr::Record { src, fields } => {
            write_form(
                lists,
                b"Record",
                &[Field::Token(src), Field::Pairs(fields)],
                w,
            )
        }
    }
}
